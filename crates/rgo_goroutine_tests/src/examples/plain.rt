//! Examples with what they print, make and do, as `tools/examples --table` writes them.

pub(crate) const PLAIN: &str = "
> echo.go
package main
import \"fmt\"
type N struct { v int; p *N }
func echo(a, b chan int) { for i := 0; i < 5; i++ { b <- <-a + 1 } }
func main() {
\ta := make(chan int)
\tb := make(chan int)
\tgo echo(a, b)
\tfor i := 0; i < 5; i++ {
\t\ta <- i * 10
\t\tfmt.Println(<-b)
\t}
}

< exit regions 2 removed 2 pages 2 returned 2 objects 2 goroutines 2 steps 124
1
11
21
31
41

> fibonacci.go
package main

import \"fmt\"

func fibonacci(n int) int {
\tif n < 2 {
\t\treturn n
\t}
\treturn fibonacci(n-1) + fibonacci(n-2)
}

func main() {
\tfor n := 0; n <= 20; n += 5 {
\t\tfmt.Println(\"fibonacci\", n, \"is\", fibonacci(n))
\t}
}

< exit regions 0 removed 0 pages 0 returned 0 objects 0 goroutines 1 steps 180461
fibonacci 0 is 0
fibonacci 5 is 5
fibonacci 10 is 55
fibonacci 15 is 610
fibonacci 20 is 6765

> heap.go
package main

import \"fmt\"

// A heap of 10,000 numbers in one slice: the least one is at the front.
type Heap struct {
\tnumbers []int
\tcount   int
}

func push(h *Heap, number int) {
\tat := h.count
\th.count++
\tfor at > 0 && h.numbers[(at-1)/2] > number {
\t\th.numbers[at] = h.numbers[(at-1)/2]
\t\tat = (at - 1) / 2
\t}
\th.numbers[at] = number
}

func pop(h *Heap) int {
\tleast := h.numbers[0]
\th.count--
\tlast := h.numbers[h.count]
\tat := 0
\tfor 2*at+1 < h.count {
\t\tchild := 2*at + 1
\t\tif child+1 < h.count && h.numbers[child+1] < h.numbers[child] {
\t\t\tchild++
\t\t}
\t\tif last <= h.numbers[child] {
\t\t\tbreak
\t\t}
\t\th.numbers[at] = h.numbers[child]
\t\tat = child
\t}
\th.numbers[at] = last
\treturn least
}

func main() {
\th := &Heap{make([]int, 10000), 0}
\tseed := 1
\tfor i := 0; i < 10000; i++ {
\t\tseed = (seed*1103515245 + 12345) % 2147483648
\t\tpush(h, seed)
\t}
\tbefore := -1
\tsorted := true
\tsum := 0
\tfor i := 0; i < 100; i++ {
\t\tnumber := pop(h)
\t\tsorted = sorted && before <= number
\t\tbefore = number
\t\tsum = (sum*31 + number) % 1000003
\t}
\tfmt.Println(sorted, before, sum, h.count)
}

< exit regions 1 removed 1 pages 42 returned 42 objects 2 goroutines 1 steps 768504
true 20320867 26547 9900

> hello.go
package main
import \"fmt\"
type N struct { v int; p *N }
func main() { fmt.Println(\"hi\", 1, true) }

< exit regions 0 removed 0 pages 0 returned 0 objects 0 goroutines 1 steps 4
hi 1 true

> list.go
package main

import \"fmt\"

// A list is a pointer to its newest node, and nil where it is empty.
type Node struct {
\tvalue int
\tnext  *Node
}

func list(n int) *Node {
\tvar all *Node
\tfor i := 1; i <= n; i++ {
\t\tall = &Node{i, all}
\t}
\treturn all
}

func reversed(all *Node) *Node {
\tvar back *Node
\tfor all != nil {
\t\tnext := all.next
\t\tall.next = back
\t\tback = all
\t\tall = next
\t}
\treturn back
}

func main() {
\tfor all := reversed(list(5)); all != nil; all = all.next {
\t\tfmt.Println(all.value)
\t}
}

< exit regions 1 removed 1 pages 1 returned 1 objects 5 goroutines 1 steps 154
1
2
3
4
5

> long_buffer.go
package main

import \"fmt\"

// All values fit the buffer, which is spread over several pages, so one goroutine can send them before the other receives any.
func send(c chan int, n int) {
\tfor i := 0; i < n; i++ {
\t\tc <- i
\t}
\tclose(c)
}

func main() {
\tc := make(chan int, 10000)
\tsend(c, 10000)
\tsum := 0
\tfor i := 0; i < 10000; i++ {
\t\tsum += <-c
\t}
\tfmt.Println(sum, <-c)
}

< exit regions 1 removed 1 pages 41 returned 41 objects 1 goroutines 1 steps 170021
49995000 0

> long_sieve.go
package main

import \"fmt\"

// The primes below 16,000. The slice is larger than a page: it is spread over several.
func main() {
\tcomposite := make([]bool, 16000)
\tcount := 0
\tfor i := 2; i < len(composite); i++ {
\t\tif !composite[i] {
\t\t\tcount++
\t\t\tfor j := i * i; j < len(composite); j += i {
\t\t\t\tcomposite[j] = true
\t\t\t}
\t\t}
\t}
\tfmt.Println(count)
}

< exit regions 1 removed 1 pages 64 returned 64 objects 1 goroutines 1 steps 399032
1862

> matrix.go
package main

import \"fmt\"

func zeros(rows, columns int) [][]int {
\tm := make([][]int, rows)
\tfor i := 0; i < rows; i++ {
\t\tm[i] = make([]int, columns)
\t}
\treturn m
}

func product(a, b [][]int) [][]int {
\tm := zeros(len(a), len(b[0]))
\tfor i := 0; i < len(a); i++ {
\t\tfor k := 0; k < len(b[0]); k++ {
\t\t\tfor j := 0; j < len(b); j++ {
\t\t\t\tm[i][k] += a[i][j] * b[j][k]
\t\t\t}
\t\t}
\t}
\treturn m
}

// A power of the matrix of Fibonacci's numbers.
func main() {
\tf := zeros(2, 2)
\tf[0][0] = 1
\tf[0][1] = 1
\tf[1][0] = 1
\tp := f
\tfor i := 1; i < 10; i++ {
\t\tp = product(p, f)
\t}
\tfmt.Println(p[0][0], p[0][1])
\tfmt.Println(p[1][0], p[1][1])
}

< exit regions 1 removed 1 pages 1 returned 1 objects 30 goroutines 1 steps 2371
89 55
55 34

> order.go
package main

import \"fmt\"

// Everything is evaluated from left to right, and the right side of && and || only where it decides.
func say(word int) int {
\tfmt.Println(\"say\", word)
\treturn word
}

func main() {
\ts := make([]int, 3)
\ts[say(1)] = say(2)
\tfmt.Println(say(3)+say(4)*say(5), s[1])
\tif say(6) == 0 && say(7) == 0 || say(8) == 8 {
\t\tfmt.Println(\"yes\")
\t}
}

< exit regions 1 removed 1 pages 1 returned 1 objects 1 goroutines 1 steps 49
say 1
say 2
say 3
say 4
say 5
23 2
say 6
say 8
yes

> primes.go
package main

import \"fmt\"

// A chain of goroutines, each of which lets through what its own prime does not divide.
func count(out chan int) {
\tfor i := 2; ; i++ {
\t\tout <- i
\t}
}

func filter(in, out chan int, prime int) {
\tfor {
\t\ti := <-in
\t\tif i%prime != 0 {
\t\t\tout <- i
\t\t}
\t}
}

func main() {
\tin := make(chan int)
\tgo count(in)
\tfor i := 0; i < 10; i++ {
\t\tprime := <-in
\t\tfmt.Println(prime)
\t\tout := make(chan int)
\t\tgo filter(in, out, prime)
\t\tin = out
\t}
}

< exit regions 1 removed 0 pages 1 returned 0 objects 11 goroutines 12 steps 1571
2
3
5
7
11
13
17
19
23
29

> sieve.go
package main

import \"fmt\"

// The primes below n, by the sieve of Eratosthenes: a slice starts with every element false.
func main() {
\tn := 50
\tcomposite := make([]bool, n)
\tfor i := 2; i < n; i++ {
\t\tif composite[i] {
\t\t\tcontinue
\t\t}
\t\tfmt.Println(i)
\t\tfor k := i * i; k < n; k += i {
\t\t\tcomposite[k] = true
\t\t}
\t}
}

< exit regions 1 removed 1 pages 1 returned 1 objects 1 goroutines 1 steps 802
2
3
5
7
11
13
17
19
23
29
31
37
41
43
47

> sort.go
package main

import \"fmt\"

// Insertion sort. A slice is not copied when it is passed: what the function writes is seen outside.
func sort(s []int) {
\tfor i := 1; i < len(s); i++ {
\t\tx := s[i]
\t\tk := i
\t\tfor k > 0 && s[k-1] > x {
\t\t\ts[k] = s[k-1]
\t\t\tk--
\t\t}
\t\ts[k] = x
\t}
}

func main() {
\ts := make([]int, 6)
\tfor i := 0; i < len(s); i++ {
\t\ts[i] = i * 5 % 7
\t}
\tsort(s)
\tfor i := 0; i < len(s); i++ {
\t\tfmt.Println(s[i])
\t}
}

< exit regions 1 removed 1 pages 1 returned 1 objects 1 goroutines 1 steps 342
0
1
3
4
5
6

> square_matrix.go
package main

import \"fmt\"

// A matrix of 100 by 100 numbers, in one slice that is spread over several pages.
type Matrix struct {
\tcells []int
\twidth int
}

func matrix(width int) *Matrix {
\treturn &Matrix{make([]int, width*width), width}
}

func transposed(a *Matrix) *Matrix {
\tb := matrix(a.width)
\tfor i := 0; i < a.width; i++ {
\t\tfor j := 0; j < a.width; j++ {
\t\t\tb.cells[j*a.width+i] = a.cells[i*a.width+j]
\t\t}
\t}
\treturn b
}

func row(a *Matrix, i int) int {
\tsum := 0
\tfor j := 0; j < a.width; j++ {
\t\tsum += a.cells[i*a.width+j]
\t}
\treturn sum
}

func main() {
\ta := matrix(100)
\tfor i := 0; i < 100*100; i++ {
\t\ta.cells[i] = i
\t}
\tb := transposed(a)
\tfmt.Println(row(a, 0), row(a, 99), row(b, 0), row(b, 99), b.cells[9801])
}

< exit regions 2 removed 2 pages 84 returned 84 objects 4 goroutines 1 steps 266876
4950 994950 495000 504900 198

> stack.go
package main

import \"fmt\"

// Package variables start at the zero of their type.
var top *Item
var size int

type Item struct {
\tvalue int
\tbelow *Item
}

func push(value int) {
\ttop = &Item{value, top}
\tsize++
}

func pop() int {
\tvalue := top.value
\ttop = top.below
\tsize--
\treturn value
}

func main() {
\tpush(2)
\tpush(3)
\tpush(4)
\tpush(pop() * pop())
\tpush(pop() + pop())
\tfmt.Println(pop(), size, top == nil)
}

< exit regions 0 removed 0 pages 1 returned 0 objects 5 goroutines 1 steps 125
14 0 true

> tree.go
package main

import \"fmt\"

// A binary search tree.
type Tree struct {
\tkey         int
\tleft, right *Tree
}

func insert(t *Tree, key int) *Tree {
\tif t == nil {
\t\treturn &Tree{key: key}
\t}
\tif key < t.key {
\t\tt.left = insert(t.left, key)
\t} else if key > t.key {
\t\tt.right = insert(t.right, key)
\t}
\treturn t
}

func walk(t *Tree, depth int) int {
\tif t == nil {
\t\treturn depth
\t}
\tl := walk(t.left, depth+1)
\tfmt.Println(t.key)
\tr := walk(t.right, depth+1)
\tif l > r {
\t\treturn l
\t}
\treturn r
}

func main() {
\tvar t *Tree
\tfor i := 1; i < 8; i++ {
\t\tt = insert(t, i*3%8)
\t}
\tfmt.Println(\"depth\", walk(t, 0))
}

< exit regions 1 removed 1 pages 1 returned 1 objects 7 goroutines 1 steps 403
1
2
3
4
5
6
7
depth 4

> words.go
package main
import \"fmt\"
type N struct { v int; p *N }
func main() { // what the tokens allow
\tfmt.Println(\"tab\\tand \\\"quotes\\\"\", 0x1F, 1_000_000)
\tfmt.Println(true, /* a comment may stand anywhere */ false)
}

< exit regions 0 removed 0 pages 0 returned 0 objects 0 goroutines 1 steps 7
tab\tand \"quotes\" 31 1000000
true false

> workers.go
package main

import \"fmt\"

// Three workers take numbers from one channel with a buffer, and each sends its sum when the channel is closed and
// gives zeros.
func worker(numbers, sums chan int) {
\tsum := 0
\tfor n := <-numbers; n != 0; n = <-numbers {
\t\tsum += n
\t}
\tsums <- sum
}

func main() {
\tnumbers := make(chan int, 4)
\tsums := make(chan int)
\tfor i := 0; i < 3; i++ {
\t\tgo worker(numbers, sums)
\t}
\tfor n := 1; n <= 100; n++ {
\t\tnumbers <- n
\t}
\tclose(numbers)
\tfmt.Println(<-sums + <-sums + <-sums)
}

< exit regions 2 removed 2 pages 2 returned 2 objects 2 goroutines 4 steps 1672
5050

> wrapping.go
package main

import \"fmt\"

// An int has 64 bits and wraps; division truncates towards zero.
func main() {
\tmost := 9223372036854775807
\tleast := most + 1
\tfmt.Println(least, -least, least-1 == most)
\tseven := 7
\ttwo := 2
\tfmt.Println(seven/two, -seven/two, seven%-two, -seven%two)
\tone := 1
\tfmt.Println(least/-one, least%-one)
}

< exit regions 0 removed 0 pages 0 returned 0 objects 0 goroutines 1 steps 30
-9223372036854775808 -9223372036854775808 true
3 -3 1 -1
-9223372036854775808 0
";
