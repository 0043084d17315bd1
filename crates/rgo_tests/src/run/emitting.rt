//! Programs, and the texts of their code, worked out by hand from the forms of code texts, as tables of calls.

/// Lines after the head, and what is written to `out`.
pub(super) const CODES: &str = "
> rgo emit
func main() {}
< 0
rgo code 1
struct N int *N
func main 0 - -
entry -[]
0 @69 +[] return -
end

> rgo emit --
func main() {}
< 0
rgo code 1
struct N int *N
func main 0 - -
entry -[]
0 @69 +[] return -
end

> rgo emit
func main() {
\tx := new(N)
\tfmt.Println(x.v)
}
< 0
rgo code 1
struct N int *N
func main 0 - -
var *N r0
var *N r0
var int -
entry -[]
0 @76 +[r0] new v0 N -[]
1 @73 +[] copy v1 v0 -[]
2 @98 +[] load v2 v1 0 -[r0]
3 @95 +[] print v2 -[]
4 @101 +[] return -
end
";

/// A code text that keeps all rules: nothing is reported.
pub(super) const CHECKED: &str = "
> rgo code
rgo code 1
struct N int *N
func main 0 - -
entry -[]
0 @69 +[] return -
end

< 0
";
