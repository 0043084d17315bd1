//! Examples with their outputs as a table of calls, as `tools/examples --table` writes them.

pub(crate) const A_TO_M: &str = "
> rgo run // echo.go
package main
import \"fmt\"
type N struct { v int; p *N }
func echo(a, b chan int) { for i := 0; i < 5; i++ { b <- <-a + 1 } }
func main() {
\ta := make(chan int)
\tb := make(chan int)
\tgo echo(a, b)
\tfor i := 0; i < 5; i++ {
\t\ta <- i * 10
\t\tfmt.Println(<-b)
\t}
}

< 0
1
11
21
31
41

> rgo run // fibonacci.go
package main

import \"fmt\"

func fibonacci(n int) int {
\tif n < 2 {
\t\treturn n
\t}
\treturn fibonacci(n-1) + fibonacci(n-2)
}

func main() {
\tfor n := 0; n <= 20; n += 5 {
\t\tfmt.Println(\"fibonacci\", n, \"is\", fibonacci(n))
\t}
}

< 0
fibonacci 0 is 0
fibonacci 5 is 5
fibonacci 10 is 55
fibonacci 15 is 610
fibonacci 20 is 6765

> rgo run // heap.go
package main

import \"fmt\"

// A heap of 10,000 numbers in one slice: the least one is at the front.
type Heap struct {
\tnumbers []int
\tcount   int
}

func push(h *Heap, number int) {
\tat := h.count
\th.count++
\tfor at > 0 && h.numbers[(at-1)/2] > number {
\t\th.numbers[at] = h.numbers[(at-1)/2]
\t\tat = (at - 1) / 2
\t}
\th.numbers[at] = number
}

func pop(h *Heap) int {
\tleast := h.numbers[0]
\th.count--
\tlast := h.numbers[h.count]
\tat := 0
\tfor 2*at+1 < h.count {
\t\tchild := 2*at + 1
\t\tif child+1 < h.count && h.numbers[child+1] < h.numbers[child] {
\t\t\tchild++
\t\t}
\t\tif last <= h.numbers[child] {
\t\t\tbreak
\t\t}
\t\th.numbers[at] = h.numbers[child]
\t\tat = child
\t}
\th.numbers[at] = last
\treturn least
}

func main() {
\th := &Heap{make([]int, 10000), 0}
\tseed := 1
\tfor i := 0; i < 10000; i++ {
\t\tseed = (seed*1103515245 + 12345) % 2147483648
\t\tpush(h, seed)
\t}
\tbefore := -1
\tsorted := true
\tsum := 0
\tfor i := 0; i < 100; i++ {
\t\tnumber := pop(h)
\t\tsorted = sorted && before <= number
\t\tbefore = number
\t\tsum = (sum*31 + number) % 1000003
\t}
\tfmt.Println(sorted, before, sum, h.count)
}

< 0
true 20320867 26547 9900

> rgo run // hello.go
package main
import \"fmt\"
type N struct { v int; p *N }
func main() { fmt.Println(\"hi\", 1, true) }

< 0
hi 1 true

> rgo run // list.go
package main

import \"fmt\"

// A list is a pointer to its newest node, and nil where it is empty.
type Node struct {
\tvalue int
\tnext  *Node
}

func list(n int) *Node {
\tvar all *Node
\tfor i := 1; i <= n; i++ {
\t\tall = &Node{i, all}
\t}
\treturn all
}

func reversed(all *Node) *Node {
\tvar back *Node
\tfor all != nil {
\t\tnext := all.next
\t\tall.next = back
\t\tback = all
\t\tall = next
\t}
\treturn back
}

func main() {
\tfor all := reversed(list(5)); all != nil; all = all.next {
\t\tfmt.Println(all.value)
\t}
}

< 0
1
2
3
4
5

> rgo run // long_buffer.go
package main

import \"fmt\"

// All values fit the buffer, which is spread over several pages, so one goroutine can send them before the other receives any.
func send(c chan int, n int) {
\tfor i := 0; i < n; i++ {
\t\tc <- i
\t}
\tclose(c)
}

func main() {
\tc := make(chan int, 10000)
\tsend(c, 10000)
\tsum := 0
\tfor i := 0; i < 10000; i++ {
\t\tsum += <-c
\t}
\tfmt.Println(sum, <-c)
}

< 0
49995000 0

> rgo run // long_sieve.go
package main

import \"fmt\"

// The primes below 16,000. The slice is larger than a page: it is spread over several.
func main() {
\tcomposite := make([]bool, 16000)
\tcount := 0
\tfor i := 2; i < len(composite); i++ {
\t\tif !composite[i] {
\t\t\tcount++
\t\t\tfor j := i * i; j < len(composite); j += i {
\t\t\t\tcomposite[j] = true
\t\t\t}
\t\t}
\t}
\tfmt.Println(count)
}

< 0
1862

> rgo run // matrix.go
package main

import \"fmt\"

func zeros(rows, columns int) [][]int {
\tm := make([][]int, rows)
\tfor i := 0; i < rows; i++ {
\t\tm[i] = make([]int, columns)
\t}
\treturn m
}

func product(a, b [][]int) [][]int {
\tm := zeros(len(a), len(b[0]))
\tfor i := 0; i < len(a); i++ {
\t\tfor k := 0; k < len(b[0]); k++ {
\t\t\tfor j := 0; j < len(b); j++ {
\t\t\t\tm[i][k] += a[i][j] * b[j][k]
\t\t\t}
\t\t}
\t}
\treturn m
}

// A power of the matrix of Fibonacci's numbers.
func main() {
\tf := zeros(2, 2)
\tf[0][0] = 1
\tf[0][1] = 1
\tf[1][0] = 1
\tp := f
\tfor i := 1; i < 10; i++ {
\t\tp = product(p, f)
\t}
\tfmt.Println(p[0][0], p[0][1])
\tfmt.Println(p[1][0], p[1][1])
}

< 0
89 55
55 34
";
