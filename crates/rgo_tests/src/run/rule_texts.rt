//! A text for each rule on meaning, and texts that pass, as `tools/marked_tables.py --table` writes them.
//!
//! Before the first `|` is what a check finds: the place, and `syntax` or the rule with its number and name, or `ok`. A `~`
//! means a newline.

/// For each rule a line after the head that breaks it, and the nearest that passes.
pub(super) const RULES: &str = "\
4:16: type 2 Redeclared | var x int; var x int; func main() {  }
ok | var x int; var y int; func main() {  }
4:15: type 3 ReservedName | func main() { len := 1 }
ok | func main() { lens := 1 }
4:27: type 4 NoSuchName | func main() { fmt.Println(x) }
ok | func main() { x := 1; fmt.Println(x) }
4:18: type 5 NotType | var x int; var y x; func main() {  }
ok | var x int; var y int; func main() {  }
4:7: type 6 StructByValue | var x N; func main() {  }
ok | var x *N; func main() {  }
4:7: type 7 PointerBase | var x *int; func main() {  }
ok | var x *N; func main() {  }
4:20: type 8 NotValue | func main() { x := N }
ok | func main() { x := new(N) }
4:20: type 9 StringPlace | func main() { x := \"a\" }
ok | func main() { fmt.Println(\"a\") }
4:22: type 10 Mismatch | func main() { x := 1 + true }
ok | func main() { x := 1 + 2 }
4:38: type 11 SliceCompare | func main() { var a, b []int; x := a == b }
ok | func main() { var a, b []int; x := a == nil }
4:17: type 12 BareNil | func main() { x := nil }
ok | func main() { var x *N = nil }
4:25: type 13 NotAssignable | func main() { var x int = true }
ok | func main() { var x bool = true }
4:17: type 14 NotPlace | func main() { 1 = 2 }
ok | func main() { x := 1; x = 2 }
4:35: type 15 NoSuchField | func main() { p := new(N); x := p.w }
ok | func main() { p := new(N); x := p.v }
4:29: type 16 NotIndexable | func main() { n := 1; x := n[0] }
ok | func main() { n := make([]int, 1); x := n[0] }
4:24: type 17 NotCall | func main() { n := 1; n() }
ok | func n() {}; func main() { n() }
4:37: type 18 ArgCount | func f(a, b int) {}; func main() { f(1) }
ok | func f(a, b int) {}; func main() { f(1, 2) }
4:34: type 19 NoResult | func f() {}; func main() { x := f() }
ok | func f() int { return 1 }; func main() { x := f() }
4:17: type 20 NotStatement | func main() { 1 + 2 }
ok | func main() { fmt.Println(1 + 2) }
4:42: type 21 GoTarget | func f() int { return 1 }; func main() { go f() }
ok | func f() {}; func main() { go f() }
4:25: type 22 NotChannel | func main() { c := 1; c <- 1 }
ok | func main() { c := make(chan int); c <- 1 }
4:15: type 23 NotBool | func main() { if 1 {} }
ok | func main() { if true {} }
4:20: type 24 NotInt | func main() { s := make([]int, true) }
ok | func main() { s := make([]int, 1) }
4:41: type 25 ConstRange | func main() { x := -9223372036854775807 - 2 }
ok | func main() { x := -9223372036854775807 - 1 }
4:37: type 26 ConstZeroDivisor | func main() { x := 1; fmt.Println(x / 0) }
ok | func main() { x := 1; fmt.Println(x / 1) }
4:42: type 27 ConstIndex | func main() { s := make([]int, 3); x := s[-1] }
ok | func main() { s := make([]int, 3); x := s[0] }
4:20: type 28 ConstSize | func main() { s := make([]int, -1) }
ok | func main() { s := make([]int, 0) }
4:20: type 29 LiteralFields | func main() { x := &N{1} }
ok | func main() { x := &N{1, nil} }
4:39: type 30 PrintType | func main() { p := new(N); fmt.Println(p) }
ok | func main() { p := new(N); fmt.Println(p.v) }
4:15: type 31 ReturnCount | func main() { return 1 }
ok | func main() { return }
4:16: type 32 MissingReturn | func f() int { }; func main() {  }
ok | func f() int { return 1 }; func main() {  }
4:15: type 33 LoopOutside | func main() { break }
ok | func main() { for { break } }
5:1: type 34 NoMain | func f() {}
ok | func f() {}~func main() {}
";

/// Whole texts.
pub(super) const WHOLE: &str = "\
2:8: type 1 BadImport | package main~import \"os\"~func main() {}
3:8: type 2 Redeclared | package main~import \"fmt\"~import \"fmt\"~func main() {}
2:17: type 2 Redeclared | package main~import ( \"fmt\"; \"fmt\" )~func main() {}
2:15: type 4 NoSuchName | package main~func main() { fmt.Println(1) }
2:27: type 4 NoSuchName | package main~func main() { fmt.Println(zz) }
2:20: type 4 NoSuchName | package main~func main() { x := fmt.Println }
2:8: type 1 BadImport | package main~import \"os\"~import \"os\"~func main() { zz() }
3:8: type 2 Redeclared | package main~import \"fmt\"~import \"fmt\"~import \"os\"~func main() {}
ok | package main~import \"fmt\"~func main() {}
ok | package main~import ()~func main() {}
ok | package main~func main() {}
ok | package main~import \"fmt\"~func main() { x := 1 }
";

/// Lines that pass.
pub(super) const PASSING: &str = "\
ok | func f(a int) {}; func main() { (f)(1) }
ok | func main() { (fmt.Println)(1) }
ok | func main() { (fmt).Println(1) }
ok | func main() { x := 1; (x)++; (x) = 2; ((x)) += 3 }
ok | func main() { c := make(chan int); (<-c); <-c }
ok | func main() { fmt.Println((\"a\"), 1) }
ok | func f() {}; func main() { (f()); go f() }
ok | func f(a int) { { var a int } }; func main() {  }
ok | func main() { if x := 1; x > 0 { x := 2; fmt.Println(x) } }
ok | func main() { for i := 0; i < 2; i++ { i := i; fmt.Println(i) } }
ok | func main() { f() }; func f() { fmt.Println(v) }; var v int
ok | func main() { p := &N{}; q := &N{p: nil, v: 1}; p.p = q; p = nil; fmt.Println(p == q, p != nil) }
ok | type E struct {}; func main() { x := &E{}; y := new(E); fmt.Println(x == y) }
ok | func f() int { for {} }; func g() int { { return 1 };; }; func main() {  }
ok | func f() int { for { for { break } } }; func main() {  }
ok | func f(a bool) int { if a { return 1 } else if !a { return 2 } else { for {} } }; func main() {  }
ok | func main() { x := (-9223372036854775807 - 1) % -1 }
ok | func main() { x := 7; x %= 2; x -= -x; x--; y := x / (1 + 1) }
ok | func main() { var a chan []*N; var b chan []*N = a; c := make(chan []*N, 1 * 2); fmt.Println(a == b, b == c, c != nil) }
ok | func main() { var s []int; s = nil; s = make([]int, len(s)); s[0] += 1; fmt.Println(len(s), s == nil, nil != s) }
ok | func main() { c := make(chan bool); go g(c); if <-c { close(c) } }; func g(c chan bool) { c <- true; return }
ok | func main() { n := 1; { n := n == 1; fmt.Println(n) }; fmt.Println(n) }
ok | var x int; type x2 struct { x, y int }; func f(x int) int { return x }; func main() { x := f(x); fmt.Println(x) }
";

/// Lines that the grammar refuses.
pub(super) const SYNTAX: &str = "\
4:27: syntax | func main() { x := 1; (x) := 1 }
4:19: syntax | func main() { new := 1 }
4:5: syntax | var new int
4:21: syntax | func main() { go fmt.Println(1) }
4:30: syntax | func main() { x := &N{1, nil}.v }
";
