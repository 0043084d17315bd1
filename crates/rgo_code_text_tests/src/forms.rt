//! Code texts of each form, read and printed again.

use crate::checks::{is_read, with_line};
use std::test::Fail;

/// A struct, a variable of it, and a field that is printed.
const FIELD: &str = "rgo code 1
struct N int *N
func main 0 - -
var *N r0
var *N r0
var int -
entry -[]
0 @76 +[r0] new v0 N -[]
1 @73 +[] copy v1 v0 -[]
2 @98 +[] load v2 v1 0 -[r0]
3 @95 +[] print v2 -[]
4 @101 +[] return -
end
";

const TEXTS: [&str; 10] = [
    FIELD,
    "rgo code 1\n",
    "rgo code 1\nstruct E\n",
    "rgo code 1\nstruct E\nstruct E *E []chan.*F chan.[]bool\nglobal x chan.int\nglobal new *Q\n",
    "rgo code 1\nfunc f 0 - -\nentry -[]\nend\n",
    "rgo code 1\nfunc f 4294967295 *int r4294967295\nentry -[r0,r1,r10]\nend\nfunc f 0 int -\nentry -[]\nend\n",
    "rgo code 1\nfunc f 0 bool G\nvar int r7\nvar []bool G\nentry -[]\n0 @0 +[] jump 0 -[]\n1 @0 +[] return v0\nend\n",
    "rgo code 1\nfunc make 0 - -\nentry -[]\n0 @1 +[] call - make() R[] P[] -[]\n1 @1 +[] go x(v1) R[r1] -[]\n\
     2 @1 +[] call v1 y(v1,v2) R[r1,-,G] P[r1,r2] -[]\n3 @1 +[] new v0 y -[]\n4 @1 +[] get v0 y -[]\nend\n",
    "rgo code 1\nglobal g int\nfunc f 0 - -\nentry -[]\n0 @1 +[] set g v1 -[]\n1 @1 +[] set h v1 -[]\n\
     2 @1 +[] get v1 g -[]\n3 @1 +[] get v1 i -[]\n4 @1 +[] get v1 h -[]\nend\n",
    "rgo code 1\nstruct A *B\nstruct C *D *B\nfunc f 0 *E G\nvar *F G\nentry -[]\n0 @1 +[] new v1 G -[]\nend\n",
];

const LINES: [&str; 47] = [
    "int v0 0 -[]",
    "int v0 9223372036854775807 -[]",
    "int v0 -9223372036854775808 -[]",
    "bool v0 true -[]",
    "bool v4294967295 false -[r0]",
    "nil v0 -[]",
    "copy v0 v1 -[]",
    "bin v0 add v1 v2 -[]",
    "bin v0 sub v1 v2 -[]",
    "bin v0 mul v1 v2 -[]",
    "bin v0 div v1 v2 -[]",
    "bin v0 rem v1 v2 -[]",
    "bin v0 eq v1 v2 -[]",
    "bin v0 ne v1 v2 -[]",
    "bin v0 lt v1 v2 -[]",
    "bin v0 le v1 v2 -[]",
    "bin v0 gt v1 v2 -[]",
    "bin v0 ge v1 v2 -[]",
    "neg v0 v1 -[]",
    "not v0 v1 -[]",
    "isnil v0 v1 -[]",
    "len v0 v1 -[]",
    "load v0 v1 4294967295 -[]",
    "store v1 2 v0 -[]",
    "at v0 v1 v2 -[]",
    "put v0 v1 v2 -[]",
    "new v0 N -[]",
    "slice v0 v1 -[]",
    "chan v0 v1 -[]",
    "recv v0 v1 -[]",
    "send v0 v1 -[]",
    "close v0 -[]",
    "get v0 g -[]",
    "set g v0 -[]",
    "call v0 f() R[] P[] -[]",
    "call - f(v1) R[r0,r0,G,-] P[r0,r1] -[r2]",
    "go f(v1,v1) R[r0] -[]",
    "print -[]",
    "print v0 -[]",
    "print v0,v1,v0 -[r0,r1]",
    "print \"\" -[]",
    "print \"a, b\",v1,\"c d\" -[]",
    "print \"\\\"\\\\\\n\\x00\\x7f\\xff~ ,-[]\" -[]",
    "print \"  \",\",\" -[]",
    "jump 0 -[r0]",
    "branch v0 0 -[] 1 -[r0,r5]",
    "return v0",
];

#[test]
fn texts_are_read(rt: HostRuntime) -> Result<(), Fail> {
    for text in TEXTS.iter() {
        is_read(&rt, text)?;
    }
    Ok(())
}

#[test]
fn lines_are_read(rt: HostRuntime) -> Result<(), Fail> {
    for line in LINES.iter() {
        let text = with_line(rt.alloc(), line)?;
        is_read(&rt, text.as_str())?;
    }
    Ok(())
}
