//! Lines after the head, with what a run prints, worked out from the words of the language, as tables of calls.

/// The head, the list of the numbers below n, and the sum of a list.
pub(super) const LISTS: &str = "\
package main
import \"fmt\"
type N struct { v int; p *N }
func list(n int) *N { var l *N; for i := 0; i < n; i++ { l = &N{i, l} }; return l }
func sum(l *N) int { s := 0; for l != nil { s += l.v; l = l.p }; return s }
";

/// Lines after `LISTS`, with what they print.
pub(super) const OVER_LISTS: &str = "
> rgo run
func main() { s := 0; for i := 0; i < 1000; i++ { s += sum(list(10)) }; fmt.Println(s) }
< 0
45000

> rgo run
func child(l *N, d chan int) { fmt.Println(sum(l)); d <- 1 }
func main() { d := make(chan int); l := list(4); go child(l, d); <-d }
< 0
6

> rgo run // Between the nodes that are kept many others come and go.
func main() { kept := list(20); s := 0; for i := 0; i < 50; i++ { s += sum(list(100))
kept = &N{i, kept}; s += sum(kept) }; fmt.Println(s, sum(kept)) }
< 0
277825 1415
";

/// Values and operators, with what is printed.
pub(super) const VALUES: &str = "
> rgo run
func main() { fmt.Println(\"hi\", 1, true) }
< 0
hi 1 true

> rgo run
func main() { fmt.Println(); fmt.Println(\"\") }
< 0



> rgo run
func main() { fmt.Println(\"a\\tb\\\\c\\\"d\\ne\", \"é\") }
< 0
a\tb\\c\"d
e é

> rgo run
func main() { fmt.Println(1 + 2*3, (1+2)*3) }
< 0
7 9

> rgo run
func main() { (fmt.Println)((\"a\")) }
< 0
a

> rgo run
func main() { fmt.Println(1 < 2, 2 <= 1, 3 > 2, 2 >= 3, 1 == 1, 1 != 1, !true) }
< 0
true false true false true false false

> rgo run
func main() { x := 9223372036854775807; x++; fmt.Println(x); x--; fmt.Println(x) }
< 0
-9223372036854775808
9223372036854775807

> rgo run
func main() { x := 4294967296; y := x * x; fmt.Println(y, x*x/x, x*2-x) }
< 0
0 0 4294967296

> rgo run
func main() { a := -7; b := 2; fmt.Println(a/b, a%b, -a/b, -a%-b, a-b-b) }
< 0
-3 -1 3 1 -11

> rgo run
func main() { a := 7; a += 2; a *= 3; a -= 1; a /= 4; a %= 4; fmt.Println(a) }
< 0
2

> rgo run
type E struct {}
func main() { x := &E{}; y := new(E); z := x; fmt.Println(x == y, x == z, x != nil) }
< 0
false true true

> rgo run
func main() { a := make(chan int); b := make(chan int); var c chan int; d := a
fmt.Println(a == b, a == d, c == nil) }
< 0
false true true

> rgo run
func main() { x := &N{1, nil}; y := &N{2, nil}; fmt.Println(x.v + y.v) }
< 0
3

> rgo run
func main() { x := new(N); x.v = 3; x.p = x; x.p.p.v++; fmt.Println(x.v, x.p == x) }
< 0
4 true

> rgo run
type W struct { a, b, c, d, e int; next *W }
func main() { x := &W{1, 2, 3, 4, 5, nil}; y := new(W); y.e = 6; y.next = x; y.next.d += 7
fmt.Println(x.a, x.b, x.c, x.d, x.e, y.a, y.e, y.next == x, x.next == nil) }
< 0
1 2 3 11 5 0 6 true true

> rgo run
func main() { s := make([][]int, 2); s[0] = make([]int, 3); s[0][2] = 7
t := s[0]; t[1] = 5
fmt.Println(s[0][0], s[0][1], s[0][2], len(s), len(s[0]), len(s[1]), s[1] == nil) }
< 0
0 5 7 2 3 0 true

> rgo run
func main() { s := make([]*N, 2); s[1] = &N{3, nil}; s[1].v++
fmt.Println(s[0] == nil, s[1].v) }
< 0
true 4

> rgo run
var a, b int; var ( c bool; d *N )
func main() { var s []int; fmt.Println(a, b, c, d == nil, len(s), s == nil)
a = 4; fmt.Println(a, b) }
< 0
0 0 false true 0 true
4 0
";

/// The order of evaluation, and what is not evaluated.
pub(super) const ORDER: &str = "
> rgo run
func p(n int, b bool) bool { fmt.Println(n); return b }
func main() { fmt.Println(p(1, false) && p(2, true)); fmt.Println(p(3, true) || p(4, false))
fmt.Println(p(5, true) && p(6, false)); fmt.Println(p(7, false) || p(8, true)) }
< 0
1
false
3
true
5
6
false
7
8
true

> rgo run
func main() { var x *N; fmt.Println(x != nil && x.v == 0, x == nil || x.v == 0) }
< 0
false true

> rgo run
func p(n int) int { fmt.Println(n); return n }
func main() { fmt.Println(p(1) + p(2)*p(3), p(4)-p(5)) }
< 0
1
2
3
4
5
7 -1

> rgo run
func p(n int) int { fmt.Println(n); return n }
func main() { s := make([]int, 3); s[p(1)] = p(7); s[p(2)] += p(9)
fmt.Println(s[0], s[1], s[2]) }
< 0
1
7
2
9
0 7 9

> rgo run
func n(i int) int { fmt.Println(i); return i }
func m(i int) *N { fmt.Println(i); return nil }
func main() { x := &N{p: m(1), v: n(2)}; fmt.Println(x.v, x.p == nil) }
< 0
1
2
2 true

> rgo run
var g int
func f() int { g = 5; return 1 }
func main() { fmt.Println(g + f(), g) }
< 0
1 5

> rgo run
var x *N
func f() int { x.v = 10; return 1 }
func main() { x = &N{5, nil}; x.v += f(); fmt.Println(x.v) }
< 0
6
";

/// Statements, calls and names.
pub(super) const STATEMENTS: &str = "
> rgo run
func main() { return; fmt.Println(1) }
< 0

> rgo run
func f(a, b *N) int { s := a.v; return s + b.v }
func main() { x := &N{21, nil}; fmt.Println(f(x, x)) }
< 0
42

> rgo run
func f(a *N) *N { return &N{a.v + 1, nil} }
func main() { x := &N{1, nil}; x = f(x); fmt.Println(x.v) }
< 0
2

> rgo run
func f(n int) { n = 7 }
func main() { n := 1; f(n); fmt.Println(n) }
< 0
1

> rgo run
var head *N
func main() { for i := 0; i < 20; i++ { fmt.Println(i); head = &N{i, head} } }
< 0
0
1
2
3
4
5
6
7
8
9
10
11
12
13
14
15
16
17
18
19

> rgo run
func main() { for i := 0; i < 4; i++ { for j := 0; ; j++ {
if j == i { break }; if j == 1 { continue }; fmt.Println(i, j) } } }
< 0
1 0
2 0
3 0
3 2

> rgo run
func main() { n := 0; for { n++; if n > 3 { break } }; fmt.Println(n) }
< 0
4

> rgo run
func main() { n := 10; for n > 1 { n /= 2; fmt.Println(n) } }
< 0
5
2
1

> rgo run
func kind(n int) int {
if n < 0 { return -1 } else if n == 0 { return 0 } else { return 1 } }
func main() { fmt.Println(kind(-5), kind(0), kind(7))
if x := 3; x > 3 { fmt.Println(x) } else { fmt.Println(-x) } }
< 0
-1 0 1
-3

> rgo run
func fib(n int) int { if n < 2 { return n }; return fib(n-1) + fib(n-2) }
func main() { fmt.Println(fib(15)) }
< 0
610

> rgo run
func even(n int) bool { if n == 0 { return true }; return odd(n - 1) }
func odd(n int) bool { if n == 0 { return false }; return even(n - 1) }
func main() { fmt.Println(even(10), odd(10)) }
< 0
true false

> rgo run
func main() { x := 1; { x := 2; x++; fmt.Println(x) }; if x := true; x { fmt.Println(x) }
for x := 8; x < 9; x++ { x := x * 2; fmt.Println(x) }; fmt.Println(x) }
< 0
3
true
16
1

> rgo run
func main() { for i := 0; i < 2; i++ { var n int; n++; fmt.Println(n) } }
< 0
1
1

> rgo run
func find(s []int, n int) int { for i := 0; i < len(s); i++ {
for { if s[i] == n { return i }; break } }; return -1 }
func main() { s := make([]int, 3); s[2] = 5; fmt.Println(find(s, 5), find(s, 0), find(s, 9)) }
< 0
2 0 -1
";

/// Two goroutines that meet at channels without buffers, one of which can step alone at any time.
pub(super) const ECHO: &str = "\
func echo(a, b chan int) { for i := 0; i < 5; i++ { b <- <-a + 1 } }
func main() { a := make(chan int); b := make(chan int); go echo(a, b)
for i := 0; i < 5; i++ { a <- i * 10; fmt.Println(<-b) } }";

/// Goroutines and channels.
pub(super) const GOROUTINES: &str = "
> rgo run
func echo(a, b chan int) { for i := 0; i < 5; i++ { b <- <-a + 1 } }
func main() { a := make(chan int); b := make(chan int); go echo(a, b)
for i := 0; i < 5; i++ { a <- i * 10; fmt.Println(<-b) } }
< 0
1
11
21
31
41

> rgo run
func prod(c chan int) { for i := 0; i < 100; i++ { c <- i }; close(c) }
func main() { c := make(chan int, 2); go prod(c)
s := 0; for i := 0; i < 100; i++ { s += <-c }; fmt.Println(s) }
< 0
4950

> rgo run
func f(a, b *N, d chan int) { s := a.v; d <- s + b.v }
func main() { x := &N{21, nil}; d := make(chan int); go f(x, x, d); fmt.Println(<-d) }
< 0
42

> rgo run
func g(c chan int) { fmt.Println(1); c <- 0 }
func main() { c := make(chan int); go g(c); <-c; fmt.Println(2) }
< 0
1
2

> rgo run
func g(c chan int) { <-c; fmt.Println(2) }
func main() { c := make(chan int); go g(c); fmt.Println(1) }
< 0
1

> rgo run
func main() { c := make(chan int, 3); c <- 4; c <- 5; close(c)
fmt.Println(<-c, <-c, <-c, <-c) }
< 0
4 5 0 0

> rgo run
func main() { c := make(chan *N); close(c); d := make(chan bool, 1); d <- true; close(d)
fmt.Println(<-c == nil, <-d, <-d) }
< 0
true true false

> rgo run
func w(c chan int, n int) { c <- n }
func main() { c := make(chan int); for i := 1; i < 11; i++ { go w(c, i) }
s := 0; for i := 1; i < 11; i++ { s += <-c }; fmt.Println(s) }
< 0
55
";
