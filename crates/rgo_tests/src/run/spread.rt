//! Objects larger than a page: their lead and data pages, how large they can be, and programs over them. The numbers were worked out by
//! hand from the rules on pages.

/// A table of calls.
pub(super) const ROWS: &str = "
> rgo run --stats // 257 elements: a lead page and two data pages of 256 words.
func main() { s := make([]int, 257); s[256] = 9; fmt.Println(s[256], s[255]) }
< 0
9 0
!
rgo: regions 1 removed 1 pages 3 returned 3 objects 1 goroutines 1

> rgo run --pages 3
func main() { s := make([]int, 257); s[256] = 9; fmt.Println(s[256], s[255]) }
< 0
9 0

> rgo run --pages 2 --stats // The third page lacks; the two are taken.
func main() { s := make([]int, 257); s[256] = 9; fmt.Println(s[256], s[255]) }
< 4
!
rgo: regions 1 removed 0 pages 2 returned 0 objects 0 goroutines 1
rgo: pages spent

> rgo run --pages 65 // 64 data pages, and no more.
func main() { s := make([]int, 16384); fmt.Println(len(s)) }
< 0
16384

> rgo run --pages 64
func main() { s := make([]int, 16384); fmt.Println(len(s)) }
< 4
!
rgo: pages spent

> rgo run --stats // No page is taken before the size is known.
func main() { s := make([]int, 16385); fmt.Println(len(s)) }
< 6
!
rgo: regions 1 removed 0 pages 0 returned 0 objects 0 goroutines 1
rgo: object too large

> rgo run --page-words 16 --stats // A lead page of 16 words has the numbers of 14 data pages.
func main() { s := make([]int, 224); s[223] = 4; fmt.Println(len(s), s[223]) }
< 0
224 4
!
rgo: regions 1 removed 1 pages 15 returned 15 objects 1 goroutines 1

> rgo run --page-words 16
func main() { s := make([]int, 225); fmt.Println(len(s)) }
< 6
!
rgo: object too large

> rgo run --page-words 16
func main() { c := make(chan int, 224); c <- 5; fmt.Println(<-c) }
< 0
5

> rgo run --page-words 16
func main() { c := make(chan int, 225); c <- 5; fmt.Println(<-c) }
< 6
!
rgo: object too large

> rgo run --stats // What is sent through 300 cells.
func main() { c := make(chan int, 300); for i := 0; i < 300; i++ { c <- i }; s := 0; for i := 0; i < 300; i++ { s += <-c }; fmt.Println(s) }
< 0
44850
!
rgo: regions 1 removed 1 pages 3 returned 3 objects 1 goroutines 1

> rgo run --page-words 16 --stats // Each field of a structure, over two data pages.
type W struct { a, b, c, d, e, f, g, h, i, j, k, l, m, n, o, p, q int }
func main() { x := new(W); x.a = 1; x.b = 2; x.o = 15; x.p = 16; x.q = 17; fmt.Println(x.a, x.b, x.c, x.o, x.p, x.q) }
< 0
1 2 0 15 16 17
!
rgo: regions 1 removed 1 pages 3 returned 3 objects 1 goroutines 1

> rgo run --page-words 16 --stats // The goroutine continues to fill its own page: both structures are in one page, besides the four pages of the slice.
type T struct { v int; s []int; t *T }
func main() { x := &T{1, nil, nil}; x.s = make([]int, 40); x.s[39] = 3; x.t = &T{2, nil, nil}; fmt.Println(x.v, x.s[39], x.t.v) }
< 0
1 3 2
!
rgo: regions 1 removed 1 pages 5 returned 5 objects 3 goroutines 1

> rgo run --stats // What a package variable leads to is never removed.
var s []int
func main() { s = make([]int, 300); s[299] = 2; fmt.Println(s[299]) }
< 0
2
!
rgo: regions 0 removed 0 pages 3 returned 0 objects 1 goroutines 1

> rgo run --pages 3 --stats // The pages of one serve for the next.
func f(n int) int { s := make([]int, 300); s[n] = n; return s[n] + s[0] }
func main() { t := 0; for i := 1; i < 51; i++ { t += f(i) }; fmt.Println(t) }
< 0
1275
!
rgo: regions 50 removed 50 pages 150 returned 150 objects 50 goroutines 1

> rgo run --page-words 16 --pages 6 // A goroutine that has some of its pages takes the others when `main` has removed its slice.
func count(ready, done chan int) { ready <- 1; s := make([]int, 40); s[39] = 7; done <- s[39] + len(s) }
func main() { ready := make(chan int, 1); done := make(chan int, 1); l := make([]int, 20); l[3] = 3; go count(ready, done); fmt.Println(<-ready); fmt.Println(l[3]); fmt.Println(<-done) }
< 0
1
3
47

> rgo run // Five goroutines that make slices at one time.
func sum(n int, d chan int) { s := make([]int, n); for i := 0; i < n; i++ { s[i] = 1 }; t := 0; for i := 0; i < n; i++ { t += s[i] }; d <- t }
func main() { d := make(chan int); for i := 1; i < 6; i++ { go sum(i * 100, d) }; t := 0; for i := 0; i < 5; i++ { t += <-d }; fmt.Println(t) }
< 0
1500
";

/// Programs over large objects.
pub(super) const PROGRAMS: &str = "
> rgo run // The number of primes below 16,000.
func main() {
\tcomposite := make([]bool, 16000)
\tcount := 0
\tfor i := 2; i < 16000; i++ {
\t\tif !composite[i] {
\t\t\tcount++
\t\t\tfor k := i * i; k < 16000; k += i { composite[k] = true }
\t\t}
\t}
\tfmt.Println(count)
}
< 0
1862

> rgo run --page-words 16 // A square matrix of 10,000 cells, as a slice of slices: its trace, and the sum that is turned over.
func filled(n int) [][]int {
\tm := make([][]int, n)
\tfor i := 0; i < n; i++ {
\t\tm[i] = make([]int, n)
\t\tfor k := 0; k < n; k++ { m[i][k] = i*n + k }
\t}
\treturn m
}
func main() {
\tm := filled(100)
\ttrace := 0
\tfor i := 0; i < 100; i++ { trace += m[i][i] }
\tsum := 0
\tfor k := 0; k < 100; k++ {
\t\tfor i := 0; i < 100; i++ { sum = (sum*31 + m[i][k]) % 1000003 }
\t}
\tfmt.Println(trace, sum)
}
< 0
499950 928607

> rgo run // A heap of 10,000 numbers, which come out in order.
func up(h []int, i int) {
\tfor i > 0 && h[i] < h[(i-1)/2] {
\t\tx := h[i]
\t\th[i] = h[(i-1)/2]
\t\th[(i-1)/2] = x
\t\ti = (i - 1) / 2
\t}
}
func down(h []int, n int) {
\ti := 0
\tfor 2*i+1 < n {
\t\tk := 2*i + 1
\t\tif k+1 < n && h[k+1] < h[k] { k++ }
\t\tif h[i] <= h[k] { return }
\t\tx := h[i]
\t\th[i] = h[k]
\t\th[k] = x
\t\ti = k
\t}
}
func main() {
\th := make([]int, 10000)
\tx := 1
\tfor i := 0; i < 10000; i++ {
\t\tx = (x*1103 + 12345) % 1000003
\t\th[i] = x
\t\tup(h, i)
\t}
\tlast := h[0]
\tsum := 0
\tordered := true
\tfor n := 10000; n > 0; n-- {
\t\tif h[0] < last { ordered = false }
\t\tlast = h[0]
\t\tsum = (sum*31 + last) % 1000003
\t\th[0] = h[n-1]
\t\tdown(h, n-1)
\t}
\tfmt.Println(ordered, last, sum)
}
< 0
true 999712 328852

> rgo run // Ten thousand values wait in a channel before the first is received.
func fill(c, d chan int) { for i := 0; i < 10000; i++ { c <- i }; d <- 1 }
func main() {
\tc := make(chan int, 10000)
\td := make(chan int)
\tgo fill(c, d)
\t<-d
\tsum := 0
\tordered := true
\tfor i := 0; i < 10000; i++ {
\t\tx := <-c
\t\tif x != i { ordered = false }
\t\tsum += x
\t}
\tfmt.Println(ordered, sum)
}
< 0
true 49995000
";
