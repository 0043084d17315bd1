//! Texts with their code.

/// The lines before each text, 56 bytes.
pub(crate) const HEAD: &str = "package main\nimport \"fmt\"\ntype N struct { v int; p *N }\n";

/// A text and its code, with places: those of the operators, of the `(` of calls, of the fields that are read, of the
/// `new`, and of the closing brace.
pub(crate) static WITH_PLACES: [(&str, &str); 2] = [
    (
        "func main() {\n\tx := new(N)\n\tfmt.Println(x.v)\n}\n",
        "\
@76 new v0 0
@73 copy v1 v0
@98 load v2 v1 0
@95 print v2
@101 return

",
    ),
    (
        "func main() { x := 3; if x > 2 { x = x / 2 } }\n",
        "\
@75 int v0 3
@72 copy v1 v0
@85 int v2 2
@83 bin v3 gt v1 v2
@78 branch v3 5 8
@97 int v4 2
@95 bin v5 div v1 v4
@91 copy v1 v5
@101 return

",
    ),
];

/// Texts and their code, without places; an empty line follows each function.
pub(crate) static LINES: [(&str, &str); 9] = [
    (
        "func main() { x := true; y := false; z := x && y || !x; fmt.Println(z) }\n",
        "\
bool v0 true
copy v1 v0
bool v2 false
copy v3 v2
copy v4 v1
branch v4 6 7
copy v4 v3
copy v5 v4
branch v5 11 9
not v6 v1
copy v5 v6
copy v7 v5
print v7
return

",
    ),
    (
        "var g int
func main() { g = 2; g += 3; g++; p := &N{1, nil}; p.v *= g; s := make([]int, g); s[0]--; s[1] = len(s) }\n",
        "\
int v0 2
set 0 v0
get v1 0
int v2 3
bin v3 add v1 v2
set 0 v3
get v4 0
int v5 1
bin v6 add v4 v5
set 0 v6
int v7 1
nil v8
new v9 0
store v9 0 v7
store v9 1 v8
copy v10 v9
load v11 v10 0
get v12 0
bin v13 mul v11 v12
store v10 0 v13
get v14 0
slice v15 v14
copy v16 v15
int v17 0
at v18 v16 v17
int v19 1
bin v20 sub v18 v19
put v16 v17 v20
int v21 1
len v22 v16
put v16 v21 v22
return

",
    ),
    (
        "func main() { for i := 0; ; i++ { if i == 2 { continue }; if i > 4 { break } else { fmt.Println(i) } } }\n",
        "\
int v0 0
copy v1 v0
int v2 2
bin v3 eq v1 v2
branch v3 5 6
jump 12
int v4 4
bin v5 gt v1 v4
branch v5 9 11
jump 16
jump 12
print v1
int v6 1
bin v7 add v1 v6
copy v1 v7
jump 2
return

",
    ),
    (
        "func f(c chan int) { c <- 1; close(c) }
func main() { c := make(chan int); go f(c); x := <-c; var p *N; if p != nil { x = p.v }; f(c) }\n",
        "\
int v1 1
send v0 v1
close v0
return

int v0 0
chan v1 v0
copy v2 v1
go 0 v2
recv v3 v2
copy v4 v3
nil v5
isnil v6 v5
not v7 v6
branch v7 10 12
load v8 v5 0
copy v4 v8
call 0 v2
return

",
    ),
    (
        "func larger(a, b int) int {\n\tif a > b {\n\t\treturn a\n\t}\n\treturn b\n}\n
func main() {\n\tm := 0\n\tfor i := 0; i < 3; i++ {\n\t\tm = larger(m, i*i-i)\n\t}\n\tfmt.Println(\"largest\", m)\n}\n",
        "\
bin v2 gt v0 v1
branch v2 2 3
return v0
return v1
jump 4

int v0 0
copy v1 v0
int v2 0
copy v3 v2
int v4 3
bin v5 lt v3 v4
branch v5 7 15
bin v6 mul v3 v3
bin v7 sub v6 v3
call v8 0 v1 v7
copy v1 v8
int v9 1
bin v10 add v3 v9
copy v3 v10
jump 4
print largest v1
return

",
    ),
    (
        "func f() int { fmt.Println(\"f\"); return -1 }
func main() { s := make([]int, 1); s[0] += f(); if f() == -1 { var b bool; b = !b } else if s == nil { return } }\n",
        "\
print f
int v0 -1
return v0
jump 3

int v0 1
slice v1 v0
copy v2 v1
int v3 0
at v4 v2 v3
call v5 0
bin v6 add v4 v5
put v2 v3 v6
call v7 0
int v8 -1
bin v9 eq v7 v8
branch v9 12 16
bool v10 false
not v11 v10
copy v10 v11
jump 19
isnil v12 v2
branch v12 18 19
return
return

",
    ),
    // the three programs of docs/REGION_INFERENCE.md
    (
        "\
func push(l *N, v int) *N { return &N{v, l} }
func next(a *N) *N { return &N{a.v + 1, nil} }
func main() { l := push(nil, 1); l = push(l, 2); k := next(l); fmt.Println(l.v, k.v) }
",
        "\
new v2 0
store v2 0 v1
store v2 1 v0
return v2
jump 4

load v1 v0 0
int v2 1
bin v3 add v1 v2
nil v4
new v5 0
store v5 0 v3
store v5 1 v4
return v5
jump 8

nil v0
int v1 1
call v2 0 v0 v1
copy v3 v2
int v4 2
call v5 0 v3 v4
copy v3 v5
call v6 1 v3
copy v7 v6
load v8 v3 0
load v9 v7 0
print v8 v9
return

",
    ),
    (
        "\
func a(x, y *N, n int) { if n > 0 { b(x, y, n - 1) } }
func b(x, y *N, n int) { if n > 0 { a(y, x, n - 1) }; x.p = y }
func main() { }
",
        "\
int v3 0
bin v4 gt v2 v3
branch v4 3 6
int v5 1
bin v6 sub v2 v5
call 1 v0 v1 v6
return

int v3 0
bin v4 gt v2 v3
branch v4 3 6
int v5 1
bin v6 sub v2 v5
call 0 v1 v0 v6
store v0 1 v1
return

return

",
    ),
    (
        "\
var last *N
func keep(a *N) { last = a }
func send(c chan *N, n int) { c <- &N{n, nil} }
func main() { c := make(chan *N); go send(c, 7); x := <-c; y := &N{0, nil}; keep(y); fmt.Println(x.v, y.v) }
",
        "\
set 0 v0
return

nil v2
new v3 0
store v3 0 v1
store v3 1 v2
send v0 v3
return

int v0 0
chan v1 v0
copy v2 v1
int v3 7
go 1 v2 v3
recv v4 v2
copy v5 v4
int v6 0
nil v7
new v8 0
store v8 0 v6
store v8 1 v7
copy v9 v8
call 0 v9
load v10 v5 0
load v11 v9 0
print v10 v11
return

",
    ),
];
