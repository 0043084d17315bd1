//! Texts with what the analyses find in them. Which code a text has is in docs/CODE.md.

pub(crate) const LOOP: &str = "func main() { x := 1; for { fmt.Println(x) } }\n";

/// Texts, and for each function a line with the variables that are live into each of its instructions. They were found
/// backwards from each reading of a variable, along all paths, up to the instruction that writes it.
pub(crate) static LIVE: [(&str, &str); 9] = [
    // straight on
    (
        "func main() { x := 1; y := x + x; fmt.Println(y, x) }\n",
        "|v0 |v1 |v1 v2 |v1 v3 ||\n",
    ),
    // k is read in the loop alone, and live through the jump at its end
    (
        "func main() { k := 2; s := 0; for s < 9 { s += k } }\n",
        "|v0 |v1 |v1 v2 |v1 v3 |v1 v3 v4 |v1 v3 v5 |v1 v3 |v1 v6 |v1 v3 ||\n",
    ),
    // each variable is read on one side
    (
        "func main() { x := 1; y := 2; if x > y { fmt.Println(x) } else { fmt.Println(y) } }\n",
        "|v0 |v1 |v1 v2 |v1 v3 |v1 v3 v4 |v1 ||v3 ||\n",
    ),
    // overwritten before it is read
    (
        "func main() { x := 1; x = 2; fmt.Println(x) }\n",
        "|v0 ||v2 |v1 ||\n",
    ),
    // read and written by one instruction
    (
        "func main() { x := 1; x = x; fmt.Println(x) }\n",
        "|v0 |v1 |v1 ||\n",
    ),
    // after a return
    (
        "func main() { x := 1; return; fmt.Println(x) }\n",
        "|v0 ||v1 ||\n",
    ),
    // a loop without end
    (LOOP, "|v0 |v1 |v1 ||\n"),
    // the second operand is read on one side alone
    (
        "func f(a, b bool) bool { return a && b }\nfunc main() { }\n",
        "v0 v1 |v1 v2 |v1 |v2 ||\n|\n",
    ),
    // what calls read and write
    (
        "func f(a, b int) int { b = f(b, a); return b }\nfunc main() { go g(f(1, 2)) }\nfunc g(a int) { }\n",
        "v0 v1 |v2 |v1 ||\n|v0 |v0 v1 |v2 ||\n|\n",
    ),
];

/// Texts, with a line for each function: the classes of its parameters and its result, as its callers see them; and then
/// those of its variables and its result. They were found by drawing all joins of an instruction at a time, those of calls
/// again until no summary changed, and naming the groups in the order of their first members.
pub(crate) static PROGRAMS: [(&str, &str, &str); 17] = [
    // the first program of docs/REGION_INFERENCE.md
    (
        "\
func push(l *N, v int) *N { return &N{v, l} }
func next(a *N) *N { return &N{a.v + 1, nil} }
func main() { l := push(nil, 1); l = push(l, 2); k := next(l); fmt.Println(l.v, k.v) }
",
        "\
r0 - > r0
r0 > r1
> -
",
        "\
r0 - r0 > r0
r0 - - - r1 r1 > r1
r0 - r0 r0 - r0 r1 r1 - - > -
",
    ),
    // the second: b joins its parameters, then a does, and then b, whose own join a has turned round
    (
        "\
func a(x, y *N, n int) { if n > 0 { b(x, y, n - 1) } }
func b(x, y *N, n int) { if n > 0 { a(y, x, n - 1) }; x.p = y }
func main() { }
",
        "\
r0 r0 - > -
r0 r0 - > -
> -
",
        "\
r0 r0 - - - - - > -
r0 r0 - - - - - > -
> -
",
    ),
    // the third: what is sent is in the region of its channel, and what a package variable holds in none of its own
    (
        "\
var last *N
func keep(a *N) { last = a }
func send(c chan *N, n int) { c <- &N{n, nil} }
func main() { c := make(chan *N); go send(c, 7); x := <-c; y := &N{0, nil}; keep(y); fmt.Println(x.v, y.v) }
",
        "\
G > -
r0 - > -
> -
",
        "\
G > -
r0 - r0 r0 > -
- r0 r0 - r0 r0 - G G G - - > -
",
    ),
    // package variables
    (
        "\
var g *N
func f(a, b *N) { g = a; b = new(N) }
func main() { x := g; y := new(N); f(x, y) }
",
        "\
G r0 > -
> -
",
        "\
G r0 r0 > -
G G r0 r0 > -
",
    ),
    // a result that is a package variable's
    (
        "\
var g *N
func f() *N { return g }
func main() { x := f(); x = x }
",
        "\
> G
> -
",
        "\
G > G
G G > -
",
    ),
    // channels of pointers and of ints
    (
        "\
func f(c chan *N, a *N) *N { c <- a; return <-c }
func main() { c := make(chan *N, 1); x := f(c, new(N)); d := make(chan int); d <- 1; x = x }
",
        "\
r0 r0 > r0
> -
",
        "\
r0 r0 r0 > r0
- r0 r0 r0 r0 r0 - r1 r1 - > -
",
    ),
    // slices of pointers and of ints
    (
        "\
func f(s []*N, i int, a *N) *N { s[i] = a; return s[0] }
func g(s, t []int) { s[0] = t[0] }
func main() { }
",
        "\
r0 - r0 > r0
r0 r1 > -
> -
",
        "\
r0 - r0 - r0 > r0
r0 r1 - - - > -
> -
",
    ),
    // names are in the order of the least variable
    (
        "\
func f(a, b, c *N) *N { c.p = a; return b.p }
func main() { }
",
        "\
r0 r1 r0 > r1
> -
",
        "\
r0 r1 r0 r1 > r1
> -
",
    ),
    // no variable is in the class of a result that is never returned
    (
        "\
func f(a *N) *N { for { } }
func main() { }
",
        "\
r0 > r1
> -
",
        "\
r0 > r1
> -
",
    ),
    // a chain of functions
    (
        "\
func a(x, y, z *N) { b(x, y, z) }
func b(x, y, z *N) { c(y, z, x) }
func c(x, y, z *N) { x.p = y }
func main() { }
",
        "\
r0 r1 r1 > -
r0 r1 r1 > -
r0 r0 r1 > -
> -
",
        "\
r0 r1 r1 > -
r0 r1 r1 > -
r0 r0 r1 > -
> -
",
    ),
    // a callee puts what it is passed into a package variable
    (
        "\
var g *N
func a(x, y *N) { b(y) }
func b(x *N) { g = x }
func main() { }
",
        "\
r0 G > -
G > -
> -
",
        "\
r0 G > -
G > -
> -
",
    ),
    // the start of a goroutine joins as a call does
    (
        "\
func a(c chan *N, x, y *N) { go b(c, x) }
func b(c chan *N, x *N) { c <- x }
func main() { }
",
        "\
r0 r0 r1 > -
r0 r0 > -
> -
",
        "\
r0 r0 r1 > -
r0 r0 > -
> -
",
    ),
    // a result that is a parameter's
    (
        "\
func a(x, y *N) *N { return b(y) }
func b(x *N) *N { return x }
func main() { }
",
        "\
r0 r1 > r1
r0 > r0
> -
",
        "\
r0 r1 r1 > r1
r0 > r0
> -
",
    ),
    // a function that calls itself: x and y by its own store, and so y and z by its call
    (
        "\
func f(x, y, z *N, n int) { if n > 0 { f(y, z, x, n - 1) }; x.p = y }
func main() { }
",
        "\
r0 r0 r0 - > -
> -
",
        "\
r0 r0 r0 - - - - - > -
> -
",
    ),
    // two calls of one function join nothing with each other
    (
        "\
func f(x, y *N) { x.p = y }
func main() { a := new(N); b := new(N); c := new(N); f(a, b); f(c, c) }
",
        "\
r0 r0 > -
> -
",
        "\
r0 r0 > -
r0 r0 r0 r0 r1 r1 > -
",
    ),
    // an argument of two parameters joins what each of them is joined with
    (
        "\
func f(w, x, y, z *N) { w.p = x; y.p = z }
func main() { a := new(N); b := new(N); c := new(N); f(a, b, b, c) }
",
        "\
r0 r0 r1 r1 > -
> -
",
        "\
r0 r0 r1 r1 > -
r0 r0 r0 r0 r0 r0 > -
",
    ),
    // the class of a result is not that of the next call's
    (
        "\
func f() *N { return new(N) }
func main() { a := f(); b := f(); a.v = b.v }
",
        "\
> r0
> -
",
        "\
r0 > r0
r0 r0 r1 r1 - > -
",
    ),
];
