//! Texts that break rules on meaning, as `tools/marked_tables.py --table` writes them.
//!
//! Before the first `|` is what a check finds: the place, and `syntax` or the rule with its number and name, or `ok`. A `~`
//! means a newline.

/// Declarations, and the names of types.
pub(super) const DECLARATIONS: &str = "\
4:6: type 2 Redeclared | type N struct {}; func main() {  }
4:24: type 2 Redeclared | type S struct { a int; a bool }; func main() {  }
4:11: type 2 Redeclared | func f(a, a int) {}; func main() {  }
4:21: type 2 Redeclared | func f(a int) { var a int }; func main() {  }
4:17: type 2 Redeclared | var x int; func x() {}; func main() {  }
4:23: type 2 Redeclared | func main() { x := 1; x := 2 }
4:24: type 2 Redeclared | func main() {  }; func main() {}
4:17: type 3 ReservedName | type S struct { len int }; func main() {  }
4:8: type 3 ReservedName | func f(nil int) {}; func main() {  }
4:6: type 3 ReservedName | func init() {}; func main() {  }
4:5: type 3 ReservedName | var _ int; func main() {  }
4:19: type 3 ReservedName | func main() { var fmt int }
4:19: type 3 ReservedName | func main() { var append, cap int }
4:15: type 3 ReservedName | func main() { sync := 1 }
4:6: type 3 ReservedName | func close() {}; func main() {  }
4:20: type 4 NoSuchName | func main() { x := x }
4:27: type 4 NoSuchName | func main() { { x := 1 }; x++ }
4:47: type 4 NoSuchName | func main() { if x := 1; true {}; fmt.Println(x) }
4:54: type 4 NoSuchName | func main() { for i := 0; i < 1; i++ {}; fmt.Println(i) }
4:7: type 4 NoSuchName | var x Q; func main() {  }
4:15: type 4 NoSuchName | var x []chan *Q; func main() {  }
4:15: type 4 NoSuchName | func main() { f() }
4:18: type 4 NoSuchName | func main() { go f() }
4:18: type 4 NoSuchName | func main() { ff(zz) }
4:21: type 4 NoSuchName | func main() { go ff(zz) }
4:15: type 4 NoSuchName | func main() { cap(1) }
4:24: type 4 NoSuchName | func main() { x := new(Q) }
4:21: type 4 NoSuchName | func main() { x := &Q{zz} }
4:20: type 5 NotType | func f() {}; var y f; func main() {  }
4:7: type 5 NotType | var y len; func main() {  }
4:8: type 5 NotType | var y *nil; func main() {  }
4:19: type 5 NotType | var v int; var x *v; func main() {  }
4:24: type 5 NotType | func main() { x := new(main) }
4:21: type 5 NotType | func main() { x := &main{zz} }
4:7: type 5 NotType | var a x; var x int; type x struct {}; func main() {  }
4:10: type 5 NotType | func f() main { return 1 }; func main() {  }
4:27: type 6 StructByValue | func main() { x := make([]N, 1) }
4:10: type 6 StructByValue | func f(a N) {}; func main() {  }
4:10: type 6 StructByValue | func f() N { return nil }; func main() {  }
4:19: type 6 StructByValue | type S struct { n N }; func main() {  }
4:20: type 7 PointerBase | func main() { x := new(bool) }
4:20: type 7 PointerBase | func main() { x := &int{} }
4:23: type 7 PointerBase | func main() { var x []*bool }
4:25: type 4 NoSuchName | func main() { x := &int{zz} }
";

/// Lines that break several rules, with the first, and strings.
pub(super) const ORDER: &str = "\
4:29: type 4 NoSuchName | func main() { zz() }; var x Q
4:12: type 4 NoSuchName | func f() { zz() }; func main() {  }
5:1: type 34 NoMain | func f() { zz() }
5:1: type 34 NoMain | func main(x int) {}
5:1: type 34 NoMain | func main() int { return 1 }
5:1: type 34 NoMain | var main int
4:22: type 4 NoSuchName | func main() { if 1 { zz() } }
4:23: type 4 NoSuchName | func main() { for 1 { zz() } }
4:30: type 4 NoSuchName | func main() { if 1 {} else { zz() } }
4:34: type 4 NoSuchName | func main() { for i := 0; i < 1; zz() { yy() } }
4:21: type 12 BareNil | func main() { var x = nil }
4:22: type 2 Redeclared | func main() { var x, x Q }
4:20: type 2 Redeclared | type S struct { a, a Q }; func main() {  }
4:11: type 2 Redeclared | func f(a, a Q) {}; func main() {  }
4:23: type 4 NoSuchName | func main() { var len Q = zz }
4:29: type 4 NoSuchName | func main() { var len int = zz }
4:19: type 3 ReservedName | func main() { var len int = true }
4:22: type 4 NoSuchName | func main() { len := zz }
4:15: type 3 ReservedName | func main() { len := nil }
4:6: type 3 ReservedName | func len(x Q) {}; func main() {  }
4:6: type 3 ReservedName | type len struct { x Q }; func main() {  }
4:16: type 4 NoSuchName | func f() int { zz() }; func main() {  }
4:17: type 26 ConstZeroDivisor | func main() { 1 / 0 }
4:32: type 4 NoSuchName | func main() { p := new(N); p.f(zz) }
4:15: type 4 NoSuchName | func main() { zz.f(yy) }
4:15: type 9 StringPlace | func main() { \"a\" }
4:25: type 9 StringPlace | func main() { fmt.Print(\"a\") }
4:27: type 9 StringPlace | func main() { fmt.Println(\"a\" == \"b\") }
4:35: type 9 StringPlace | func f(a int) {}; func main() { f(\"a\") }
4:22: type 9 StringPlace | func main() { return \"a\" }
3:19: type 6 StructByValue | type int struct {}; func main() {  }
";

/// Values, operators and constants.
pub(super) const OPERATORS: &str = "\
4:20: type 8 NotValue | func main() { x := int }
4:27: type 8 NotValue | func main() { fmt.Println(main) }
4:20: type 8 NotValue | func main() { x := len }
4:20: type 8 NotValue | func main() { x := fmt }
4:20: type 8 NotValue | func main() { x := fmt.Println }
4:20: type 8 NotValue | func main() { x := fmt.Foo }
4:15: type 8 NotValue | func main() { main++ }
4:15: type 8 NotValue | func main() { main += 1 }
4:15: type 8 NotValue | func main() { N -= 1 }
4:22: type 10 Mismatch | func main() { x := 1 < true }
4:25: type 10 Mismatch | func main() { x := true && 1 }
4:22: type 10 Mismatch | func main() { x := 1 || true }
4:22: type 10 Mismatch | func main() { x := 1 == true }
4:20: type 10 Mismatch | func main() { x := !1 }
4:20: type 10 Mismatch | func main() { x := -true }
4:20: type 10 Mismatch | func main() { x := +nil }
4:25: type 10 Mismatch | func main() { x := true % true }
4:60: type 10 Mismatch | type M struct {}; func main() { var a *N; var b *M; x := a == b }
4:55: type 10 Mismatch | func main() { var c chan int; var d chan bool; x := c != d }
4:35: type 10 Mismatch | func main() { var s []int; x := s == 1 }
4:22: type 10 Mismatch | func main() { x := 1 == nil }
4:25: type 10 Mismatch | func main() { x := 1; x += true }
4:19: type 10 Mismatch | func main() { true++ }
4:24: type 10 Mismatch | func main() { x := nil < nil }
4:24: type 10 Mismatch | func main() { x := nil + 1 }
4:20: type 10 Mismatch | func main() { true /= 0 }
4:17: type 14 NotPlace | func main() { 1 /= 0 }
4:25: type 26 ConstZeroDivisor | func main() { x := 1; x /= 0 }
4:25: type 26 ConstZeroDivisor | func main() { x := 1; x %= (1 - 1) }
4:22: type 26 ConstZeroDivisor | func main() { x := 1 % 0 }
4:49: type 11 SliceCompare | func main() { var a []int; var b []bool; x := a != b }
4:24: type 12 BareNil | func main() { x := nil == nil }
4:26: type 12 BareNil | func main() { fmt.Println(nil) }
4:26: type 12 BareNil | func main() { fmt.Println(1, nil) }
4:31: type 12 BareNil | func main() { x := fmt.Println(nil) }
4:40: type 25 ConstRange | func main() { x := 9223372036854775807 + 1 }
4:40: type 25 ConstRange | func main() { x := 9223372036854775807 + 1 - 1 }
4:22: type 25 ConstRange | func main() { x := 2 * 4611686018427387904 }
4:20: type 25 ConstRange | func main() { x := -(-9223372036854775807 - 1) }
4:47: type 25 ConstRange | func main() { x := (-9223372036854775807 - 1) / -1 }
4:48: type 25 ConstRange | func main() { x := 1; x += 9223372036854775807 + 1 }
4:37: type 27 ConstIndex | func main() { s := make([]int, 3); s[0 - 1] = 1 }
4:20: type 28 ConstSize | func main() { c := make(chan int, -1) }
4:20: type 24 NotInt | func main() { c := make(chan int, nil) }
";

/// What is assigned, called and returned, and how bodies end.
pub(super) const STATEMENTS: &str = "\
4:25: type 13 NotAssignable | func main() { x := 1; x = true }
4:30: type 13 NotAssignable | func main() { var x []int; x = 1 }
4:25: type 13 NotAssignable | func main() { x := 1; x = nil }
4:37: type 13 NotAssignable | func f(a, b int) {}; func main() { f(true) }
4:37: type 13 NotAssignable | func f(a, b int) {}; func main() { f(1, true, 1) }
4:16: type 13 NotAssignable | func f() int { return true }; func main() {  }
4:38: type 13 NotAssignable | func main() { c := make(chan int); c <- true }
4:20: type 13 NotAssignable | func main() { x := &N{true, nil} }
4:20: type 13 NotAssignable | func main() { x := &N{true} }
4:20: type 13 NotAssignable | func main() { x := &N{v: true} }
4:33: type 13 NotAssignable | func f(a int) {}; func main() { go f(true) }
4:47: type 13 NotAssignable | func main() { var c chan int; var d chan bool = c }
4:52: type 13 NotAssignable | type M struct {}; func main() { var a *N; var b *M = a }
4:20: type 14 NotPlace | func main() { main = 1 }
4:32: type 14 NotPlace | func g() {}; func main() { g() = 1 }
4:52: type 14 NotPlace | func f(a int) int { return a }; func main() { f(1) = true }
4:20: type 14 NotPlace | func main() { true = 1 }
4:19: type 14 NotPlace | func main() { nil = 1 }
4:19: type 14 NotPlace | func main() { int = 1 }
4:19: type 14 NotPlace | func main() { fmt = 1 }
4:16: type 14 NotPlace | func main() { 1++ }
4:16: type 14 NotPlace | func main() { 1-- }
4:22: type 14 NotPlace | func main() { new(N) = nil }
4:30: type 15 NoSuchField | func main() { x := 1; y := x.v }
4:24: type 15 NoSuchField | func main() { x := nil.v }
4:32: type 15 NoSuchField | func main() { p := new(N); p.p.q = 1 }
4:42: type 16 NotIndexable | func main() { s := make([]int, 1); x := s[true] }
4:23: type 16 NotIndexable | func main() { x := len(1) }
4:23: type 16 NotIndexable | func main() { x := len(nil) }
4:23: type 16 NotIndexable | func main() { x := len(1, 2) }
4:31: type 17 NotCall | func main() { p := new(N); p.v() }
4:32: type 17 NotCall | func main() { p := new(N); p.zz() }
4:16: type 17 NotCall | func main() { 1() }
4:23: type 17 NotCall | func main() { x := int(1) }
4:16: type 17 NotCall | func main() { N(1) }
4:19: type 17 NotCall | func main() { true() }
4:24: type 17 NotCall | func main() { fmt.Print(1) }
4:40: type 17 NotCall | func main() { s := make([]int, 1); s[0](1) }
4:51: type 17 NotCall | func f(a int) int { return a }; func main() { f(1)(2) }
4:23: type 18 ArgCount | func main() { x := len() }
4:44: type 18 ArgCount | func main() { s := make([]int, 1); x := len(s, s) }
4:20: type 18 ArgCount | func main() { close() }
4:20: type 18 ArgCount | func main() { close(1, 2) }
4:19: type 18 ArgCount | func main() { main(1) }
4:36: type 18 ArgCount | func f(a, b int) {}; func main() { go f(1) }
4:31: type 19 NoResult | func main() { x := fmt.Println(1) }
4:46: type 19 NoResult | func main() { c := make(chan int); x := close(c) }
4:25: type 19 NoResult | func main() { x := close(1) }
4:44: type 19 NoResult | func main() { p := new(N); x := fmt.Println(p) }
4:29: type 19 NoResult | func g() {}; func main() { g()++ }
4:41: type 19 NoResult | func g() {}; func main() { fmt.Println(g()) }
4:32: type 19 NoResult | func g() {}; func main() { if g() {} }
4:36: type 19 NoResult | func g() {}; func main() { return g() }
4:23: type 20 NotStatement | func main() { x := 1; x }
4:39: type 20 NotStatement | func main() { s := make([]int, 1); len(s) }
4:15: type 20 NotStatement | func main() { new(N) }
4:15: type 20 NotStatement | func main() { make([]int, 1) }
4:30: type 20 NotStatement | func main() { p := new(N); p.v }
4:37: type 20 NotStatement | func main() { s := make([]int, 1); s[0] }
4:15: type 20 NotStatement | func main() { &N{} }
4:15: type 20 NotStatement | func main() { !true }
4:18: type 20 NotStatement | func main() { (1 + 2) }
4:23: type 21 GoTarget | func main() { x := 1; go x() }
4:15: type 21 GoTarget | func main() { go len(1) }
4:36: type 21 GoTarget | func main() { c := make(chan int); go close(c) }
4:15: type 21 GoTarget | func main() { go int(1) }
4:20: type 22 NotChannel | func main() { x := <-1 }
4:15: type 22 NotChannel | func main() { <-nil }
4:19: type 22 NotChannel | func main() { nil <- 1 }
4:20: type 22 NotChannel | func main() { close(1) }
4:15: type 23 NotBool | func main() { for 1 {} }
4:15: type 23 NotBool | func main() { for i := 0; i; i++ {} }
4:31: type 23 NotBool | func main() { if true {} else if nil {} }
4:20: type 29 LiteralFields | func main() { x := &N{w: 1} }
4:20: type 29 LiteralFields | func main() { x := &N{v: 1, v: 2} }
4:20: type 29 LiteralFields | func main() { x := &N{1, nil, 2} }
4:38: type 29 LiteralFields | type E struct {}; func main() { x := &E{1} }
4:47: type 30 PrintType | func main() { s := make([]int, 1); fmt.Println(1, s) }
4:26: type 30 PrintType | func main() { fmt.Println(make(chan int)) }
4:16: type 31 ReturnCount | func f() int { return }; func main() {  }
4:28: type 32 MissingReturn | func f() int { for true {} }; func main() {  }
4:30: type 32 MissingReturn | func f() int { for { break } }; func main() {  }
4:37: type 32 MissingReturn | func f() int { if true { return 1 } }; func main() {  }
4:45: type 32 MissingReturn | func f() int { if true { return 1 } else {} }; func main() {  }
4:42: type 32 MissingReturn | func f() int { for { if true { break } } }; func main() {  }
4:25: type 33 LoopOutside | func main() { if true { continue } }
4:24: type 33 LoopOutside | func main() { for { }; break }
";
