//! Lines after the head, run with options: what is printed, what is reported, and the status. With `--stats` the report
//! begins with what the run has made. The numbers were worked out by hand from the rules on regions and pages. What a run
//! with several goroutines has made depends on the order of their steps, and is wanted of one worker.

/// A table of calls.
pub(super) const ROWS: &str = "
> rgo run --stats // Nothing is made but `main`.
func main() {}
< 0
!
rgo: regions 0 removed 0 pages 0 returned 0 objects 0 goroutines 1

> rgo run --stats // The region of `a` is dead in `f` before that of `b`, and both are one: the call protects it.
func f(a, b *N) int { s := a.v; return s + b.v }
func main() { x := &N{21, nil}; fmt.Println(f(x, x)) }
< 0
42
!
rgo: regions 1 removed 1 pages 1 returned 1 objects 1 goroutines 1

> rgo run --stats // The result lies in the region that is passed for it.
func f(a *N) *N { return &N{a.v + 1, nil} }
func main() { x := &N{1, nil}; x = f(x); fmt.Println(x.v) }
< 0
2
!
rgo: regions 1 removed 1 pages 1 returned 1 objects 2 goroutines 1

> rgo run --page-words 16 --pages 2 // What a package variable leads to is never removed: two pages of 16 words have sixteen nodes.
var head *N
func main() { for i := 0; i < 17; i++ { fmt.Println(i); head = &N{i, head} } }
< 4
0
1
2
3
4
5
6
7
8
9
10
11
12
13
14
15
16
!
rgo: pages spent

> rgo run --page-words 16 --pages 2 --stats
var head *N
func main() { for i := 0; i < 16; i++ { head = &N{i, head} }; fmt.Println(head.v) }
< 0
15
!
rgo: regions 0 removed 0 pages 2 returned 0 objects 16 goroutines 1

> rgo run --page-words 16 --pages 2 // Objects that do not outlive their turn of the loop need one page at a time.
func main() { for i := 0; i < 20; i++ { x := &N{i, nil}; fmt.Println(x.v) } }
< 0
0
1
2
3
4
5
6
7
8
9
10
11
12
13
14
15
16
17
18
19

> rgo run --page-words 16 --stats // A structure takes a word for each field: 16 of them fill a page, and one more is spread.
type W struct { a, b, c, d, e, f, g, h, i, j, k, l, m, n, o, p int }
func main() { x := new(W); fmt.Println(x.a) }
< 0
0
!
rgo: regions 1 removed 1 pages 1 returned 1 objects 1 goroutines 1

> rgo run --page-words 16 --stats
type W struct { a, b, c, d, e, f, g, h, i, j, k, l, m, n, o, p, q int }
func main() { x := new(W); fmt.Println(x.a) }
< 0
0
!
rgo: regions 1 removed 1 pages 3 returned 3 objects 1 goroutines 1

> rgo run --workers 1 --stats // Goroutines that meet at channels without buffers. Both come to their ends in the last round.
func echo(a, b chan int) { for i := 0; i < 5; i++ { b <- <-a + 1 } }
func main() { a := make(chan int); b := make(chan int); go echo(a, b)
for i := 0; i < 5; i++ { a <- i * 10; fmt.Println(<-b) } }
< 0
1
11
21
31
41
!
rgo: regions 2 removed 2 pages 2 returned 2 objects 2 goroutines 2

> rgo run --workers 1 --stats // A channel with a buffer.
func prod(c chan int) { for i := 0; i < 100; i++ { c <- i }; close(c) }
func main() { c := make(chan int, 2); go prod(c); s := 0
for i := 0; i < 100; i++ { s += <-c }; fmt.Println(s) }
< 0
4950
!
rgo: regions 1 removed 1 pages 1 returned 1 objects 1 goroutines 2

> rgo run --workers 1 --stats // A goroutine is given one region at two positions. It comes to its end in the round in which `main` returns.
func f(a, b *N, d chan int) { s := a.v; d <- s + b.v }
func main() { x := &N{21, nil}; d := make(chan int); go f(x, x, d); fmt.Println(<-d) }
< 0
42
!
rgo: regions 2 removed 2 pages 2 returned 2 objects 2 goroutines 2

> rgo run --stats // An object that fits a page, and one that has a word more.
func main() { s := make([]int, 255); fmt.Println(len(s)) }
< 0
255
!
rgo: regions 1 removed 1 pages 1 returned 1 objects 1 goroutines 1

> rgo run --stats
func main() { s := make([]int, 256); fmt.Println(len(s)) }
< 0
256
!
rgo: regions 1 removed 1 pages 2 returned 2 objects 1 goroutines 1

> rgo run --page-words 4096
func main() { s := make([]int, 4095); fmt.Println(len(s)) }
< 0
4095

> rgo run --page-words 16 --stats // A channel takes two words and one for each place, but at least three.
func main() { c := make(chan int, 14); c <- 1; fmt.Println(<-c) }
< 0
1
!
rgo: regions 1 removed 1 pages 1 returned 1 objects 1 goroutines 1

> rgo run --page-words 16 --stats
func main() { c := make(chan int, 15); c <- 1; fmt.Println(<-c) }
< 0
1
!
rgo: regions 1 removed 1 pages 2 returned 2 objects 1 goroutines 1

> rgo run --regions 2 --stats // Regions that live at one time.
func main() { x := &N{1, nil}; y := &N{2, nil}; fmt.Println(x.v + y.v) }
< 0
3
!
rgo: regions 2 removed 2 pages 2 returned 2 objects 2 goroutines 1

> rgo run --regions 1 --stats
func main() { x := &N{1, nil}; y := &N{2, nil}; fmt.Println(x.v + y.v) }
< 5
!
rgo: regions 1 removed 0 pages 1 returned 0 objects 1 goroutines 1
rgo: regions spent

> rgo run --regions 1 // The creation comes before the trap of its instruction.
func main() { x := &N{1, nil}; n := -1; y := make([]int, n); fmt.Println(x.v, len(y)) }
< 5
!
rgo: regions spent

> rgo run --regions 1 --pages 1 --stats // Regions that follow each other.
func main() { for i := 0; i < 3; i++ { x := &N{i, nil}; fmt.Println(x.v) } }
< 0
0
1
2
!
rgo: regions 3 removed 3 pages 3 returned 3 objects 3 goroutines 1

> rgo run --stats // What has not been removed when the run ends.
func main() { c := make(chan int); <-c }
< 3
!
rgo: regions 1 removed 0 pages 1 returned 0 objects 1 goroutines 1
rgo: deadlock

> rgo run --stats --steps 1000
func main() { for {} }
< 8
!
rgo: regions 0 removed 0 pages 0 returned 0 objects 0 goroutines 1
rgo: steps spent
";

/// The same after `LISTS`.
pub(super) const OVER_LISTS: &str = "
> rgo run --pages 1 --stats // A thousand lists, one after another, in one page.
func main() { s := 0; for i := 0; i < 1000; i++ { s += sum(list(10)) }; fmt.Println(s) }
< 0
45000
!
rgo: regions 1000 removed 1000 pages 1000 returned 1000 objects 10000 goroutines 1

> rgo run --page-words 16 --pages 1 // Ten nodes take two pages of 16 words.
func main() { s := 0; for i := 0; i < 1000; i++ { s += sum(list(10)) }; fmt.Println(s) }
< 4
!
rgo: pages spent

> rgo run --page-words 16 --pages 2 --stats
func main() { s := 0; for i := 0; i < 1000; i++ { s += sum(list(10)) }; fmt.Println(s) }
< 0
45000
!
rgo: regions 1000 removed 1000 pages 2000 returned 2000 objects 10000 goroutines 1

> rgo run --workers 1 --stats // A list that a goroutine is given, which makes nothing itself.
func child(l *N, d chan int) { fmt.Println(sum(l)); d <- 1 }
func main() { d := make(chan int); l := list(4); go child(l, d); <-d }
< 0
6
!
rgo: regions 2 removed 2 pages 2 returned 2 objects 5 goroutines 2

> rgo run --page-words 16 --pages 4 --regions 4 // A goroutine that lacks a page continues when `main` has removed its list.
func count(ready, done chan int) { ready <- 1; done <- sum(list(9)) }
func main() { ready := make(chan int, 1); done := make(chan int, 1); l := list(1); go count(ready, done); fmt.Println(<-ready); fmt.Println(l.v); fmt.Println(<-done) }
< 0
1
0
36

> rgo run --page-words 16 --pages 5 --regions 3 // The same of a region.
func count(ready, done chan int) { ready <- 1; done <- sum(list(9)) }
func main() { ready := make(chan int, 1); done := make(chan int, 1); l := list(1); go count(ready, done); fmt.Println(<-ready); fmt.Println(l.v); fmt.Println(<-done) }
< 0
1
0
36
";
