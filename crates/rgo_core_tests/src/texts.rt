//! Code texts that keep all rules.

/// `main` returns. There is no package variable.
pub static EMPTY: &str = "\
rgo code 1
func main 0 - -
entry -[]
0 @20 +[] return -
end
";

/// `main` sets the one package variable to 7.
pub static SEVEN: &str = "\
rgo code 1
global count int
func main 0 - -
var int -
entry -[]
0 @20 +[] int v0 7 -[]
1 @30 +[] set count v0 -[]
2 @40 +[] return -
end
";

/// `main` is the second function and calls the first. There are three package variables.
pub static CALL: &str = "\
rgo code 1
struct N int *N
global head *N
global count int
global full bool
func one 0 int -
var int -
entry -[]
0 @20 +[] int v0 1 -[]
1 @30 +[] return v0
end
func main 0 - -
var int -
entry -[]
0 @40 +[] call v0 one() R[] P[] -[]
1 @50 +[] set count v0 -[]
2 @60 +[] return -
end
";
