//! Tables of calls with lines after the head whose runs end with a trap or otherwise, worked out from the words of the
//! language.
//!
//! `tools/marked_tables.py --table` writes this file from `tools/marked_programs/ends.calls`.

/// Lines that end with a trap.
pub(super) const TRAPS: &str = "
> rgo run
func main() { var x *N; fmt.Println(x.v) }
< 2
!
rgo: 4:39: trap 1 NilPointer

> rgo run
func main() { x := &N{1, nil}; fmt.Println(x.v, x.p.v) }
< 2
!
rgo: 4:53: trap 1 NilPointer

> rgo run
func f() int { fmt.Println(1); return 2 }
func main() { var x *N; x.v = f() }
< 2
1
!
rgo: 5:29: trap 1 NilPointer

> rgo run
func f() int { fmt.Println(1); return 2 }
func main() { var x *N; x.v += f() }
< 2
!
rgo: 5:27: trap 1 NilPointer

> rgo run
func g() { var x *N; x.v = 1 }
func main() { go g(); for {} }
< 2
!
rgo: 4:26: trap 1 NilPointer

> rgo run
func main() {
\ts := make([]int, 3)
\tfmt.Println(s[3])
}
< 2
!
rgo: 6:15: trap 2 IndexRange

> rgo run
func main() { s := make([]int, 3); i := -1; s[i] = 4 }
< 2
!
rgo: 4:50: trap 2 IndexRange

> rgo run
func main() { s := make([]int, 3); i := -1; s[i] += 4 }
< 2
!
rgo: 4:46: trap 2 IndexRange

> rgo run
func main() { var s []int; fmt.Println(7); s[0]++ }
< 2
7
!
rgo: 4:45: trap 2 IndexRange

> rgo run
func main() {
\ta := -9223372036854775807 - 1
\tb := -1
\tfmt.Println(a/b, a%b)
\tb++
\tfmt.Println(a / b)
}
< 2
-9223372036854775808 0
!
rgo: 9:16: trap 3 DivideZero

> rgo run
func main() { x := 0; x %= x }
< 2
!
rgo: 4:25: trap 3 DivideZero

> rgo run
func main() { n := -1; s := make([]int, n); fmt.Println(len(s)) }
< 2
!
rgo: 4:29: trap 4 BadSize

> rgo run
func main() { n := 0; c := make(chan int, n - 1); c <- 1 }
< 2
!
rgo: 4:28: trap 4 BadSize

> rgo run
func main() {
\tc := make(chan int, 2)
\tc <- 7
\tclose(c)
\tfmt.Println(<-c, <-c)
\tc <- 1
}
< 2
7 0
!
rgo: 9:4: trap 5 SendClosed

> rgo run
func g(c chan int) { c <- 1 }
func main() { c := make(chan int); go g(c); close(c); for {} }
< 2
!
rgo: 4:24: trap 5 SendClosed

> rgo run
func main() { c := make(chan int); close(c); close(c) }
< 2
!
rgo: 4:51: trap 6 CloseClosed

> rgo run
func main() { var c chan int; close(c) }
< 2
!
rgo: 4:36: trap 7 CloseNil

> rgo run --pages 1 --page-words 16 // A negative size traps before a page is taken.
func main() { x := &N{1, nil}; n := -225; s := make([]int, n); fmt.Println(x.v, len(s)) }
< 2
!
rgo: 4:48: trap 4 BadSize

> rgo run --page-words 16 // An index beyond an object of several pages.
func main() { s := make([]int, 40); i := 40; fmt.Println(s[39]); fmt.Println(s[i]) }
< 2
0
!
rgo: 4:79: trap 2 IndexRange

> rgo run --stats // The numbers of a run that traps are reported before the trap.
func main() {
\tc := make(chan int, 2)
\tc <- 7
\tclose(c)
\tfmt.Println(<-c, <-c)
\tc <- 1
}
< 2
7 0
!
rgo: regions 1 removed 0 pages 1 returned 0 objects 1 goroutines 1
rgo: 9:4: trap 5 SendClosed
";

/// Words and lines that end otherwise.
pub(super) const ENDS: &str = "
> rgo run
func main() { c := make(chan int); <-c }
< 3
!
rgo: deadlock

> rgo run
func g(c chan int) { c <- 1 }
func main() { var c chan int; go g(c); <-c }
< 3
!
rgo: deadlock

> rgo run
func main() { fmt.Println(1); c := make(chan int); c <- 1 }
< 3
1
!
rgo: deadlock

> rgo run
func main() { c := make(chan int, 1); c <- 1; fmt.Println(2); c <- 3 }
< 3
2
!
rgo: deadlock

> rgo run
func f() { f() }
func main() { fmt.Println(1); f() }
< 7
1
!
rgo: calls too deep

> rgo run --steps 10
func main() { for {} }
< 8
!
rgo: steps spent

> rgo run --steps=1000
func main() { fmt.Println(1); for {} }
< 8
1
!
rgo: steps spent

> rgo run --goroutines 1
func echo(a, b chan int) { for i := 0; i < 5; i++ { b <- <-a + 1 } }
func main() { a := make(chan int); b := make(chan int); go echo(a, b)
for i := 0; i < 5; i++ { a <- i * 10; fmt.Println(<-b) } }
< 12
!
rgo: goroutines spent

> rgo run --goroutines=2
func echo(a, b chan int) { for i := 0; i < 5; i++ { b <- <-a + 1 } }
func main() { a := make(chan int); b := make(chan int); go echo(a, b)
for i := 0; i < 5; i++ { a <- i * 10; fmt.Println(<-b) } }
< 0
1
11
21
31
41

> rgo run --goroutines 5 --steps 100000 --
func g() {}
func main() { for i := 0; i < 5; i++ { fmt.Println(i); go g() } }
< 12
0
1
2
3
4
!
rgo: goroutines spent

> rgo run --goroutines 6
func g() {}
func main() { for i := 0; i < 5; i++ { fmt.Println(i); go g() } }
< 0
0
1
2
3
4

> rgo run
func g(p *N) { fmt.Println(p.v) }
func main() { go g(nil); go g(nil); for {} }
< 2
!
rgo: 4:30: trap 1 NilPointer

> rgo check
func echo(a, b chan int) { for i := 0; i < 5; i++ { b <- <-a + 1 } }
func main() { a := make(chan int); b := make(chan int); go echo(a, b)
for i := 0; i < 5; i++ { a <- i * 10; fmt.Println(<-b) } }
< 0

> rgo check
func main() { for {} }
< 0

> rgo check
func main() { fmt.Println(1) }
< 0

> any run --
func main() { fmt.Println(1) }
< 0
1
";
