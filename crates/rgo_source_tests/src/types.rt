//! Typing of whole programs: one that is rejected, and one that is valid.

use crate::checks::same;
use crate::texts::{parsed, typed};
use rgo_types::check;
use rgo_typing_rules::{Rule, TypeError, TypeRefusal};
use std::test::Fail;

#[test]
fn a_text_without_main_is_refused(rt: HostRuntime) -> Result<(), Fail> {
    let text = "package main; var x int";
    let program = parsed(rt.alloc(), text)?;
    let refusal = TypeRefusal {
        rule: Rule::NoMain,
        at: text.len(),
    };
    let found = check(rt.alloc(), &program).err();
    same(&rt, "no main", &found, &Some(TypeError::Refused(refusal)));
    Ok(())
}

#[test]
fn main_is_typed(rt: HostRuntime) -> Result<(), Fail> {
    let text = "package main; func main() { }";
    let program = typed(rt.alloc(), text)?;
    same(&rt, "structs", &program.structs.items().len(), &0);
    same(&rt, "variables", &program.variables.items().len(), &0);
    same(&rt, "functions", &program.functions.len(), &1);
    let Some(main) = program.functions.first() else {
        return Err(Fail::new("no function"));
    };
    same(&rt, "name", &main.name.bytes(), &b"main".as_slice());
    same(&rt, "parameters", &main.params, &0);
    // The last byte is the `}` of `main`.
    same(&rt, "end", &main.end, &text.len().saturating_sub(1));
    same(&rt, "result", &main.result_type.is_none(), &true);
    same(&rt, "body", &main.body.is_empty(), &true);
    Ok(())
}
