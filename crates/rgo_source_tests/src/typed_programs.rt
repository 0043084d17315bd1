//! The parts of a typed program.

use crate::checks::same;
use crate::texts::typed;
use rgo_typed::Stmt;
use std::test::Fail;

const PROGRAM: &str = "\
package main
import \"fmt\"
type N struct { value int; next *N }
var b bool
func main() { if true && !b { b = true }; fmt.Println(\"a\", 7) }
";

/// The numbers of statements, pieces and operands of the branch and of the print that are a body.
fn sizes(body: &[Stmt]) -> Option<(usize, usize, usize)> {
    match body {
        [Stmt::If(_, inner, 88), Stmt::Print(pieces, values, 127)] => {
            Some((inner.len(), pieces.items().len(), values.len()))
        }
        _ => None,
    }
}

#[test]
fn programs_have_their_parts(rt: HostRuntime) -> Result<(), Fail> {
    let program = typed(rt.alloc(), PROGRAM)?;
    same(&rt, "structs", &program.structs.items().len(), &1);
    same(&rt, "variables", &program.variables.items().len(), &1);
    let Some(main) = program.functions.first() else {
        return Err(Fail::new("no function"));
    };
    same(&rt, "main", &main.name.bytes(), &b"main".as_slice());
    same(&rt, "the body", &sizes(&main.body), &Some((1, 2, 1)));
    Ok(())
}
