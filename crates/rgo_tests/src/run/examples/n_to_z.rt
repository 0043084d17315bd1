//! Examples with their outputs as a table of calls, as `tools/examples --table` writes them.

pub(crate) const N_TO_Z: &str = "
> rgo run // order.go
package main

import \"fmt\"

// Everything is evaluated from left to right, and the right side of && and || only where it decides.
func say(word int) int {
\tfmt.Println(\"say\", word)
\treturn word
}

func main() {
\ts := make([]int, 3)
\ts[say(1)] = say(2)
\tfmt.Println(say(3)+say(4)*say(5), s[1])
\tif say(6) == 0 && say(7) == 0 || say(8) == 8 {
\t\tfmt.Println(\"yes\")
\t}
}

< 0
say 1
say 2
say 3
say 4
say 5
23 2
say 6
say 8
yes

> rgo run // primes.go
package main

import \"fmt\"

// A chain of goroutines, each of which lets through what its own prime does not divide.
func count(out chan int) {
\tfor i := 2; ; i++ {
\t\tout <- i
\t}
}

func filter(in, out chan int, prime int) {
\tfor {
\t\ti := <-in
\t\tif i%prime != 0 {
\t\t\tout <- i
\t\t}
\t}
}

func main() {
\tin := make(chan int)
\tgo count(in)
\tfor i := 0; i < 10; i++ {
\t\tprime := <-in
\t\tfmt.Println(prime)
\t\tout := make(chan int)
\t\tgo filter(in, out, prime)
\t\tin = out
\t}
}

< 0
2
3
5
7
11
13
17
19
23
29

> rgo run // sieve.go
package main

import \"fmt\"

// The primes below n, by the sieve of Eratosthenes: a slice starts with every element false.
func main() {
\tn := 50
\tcomposite := make([]bool, n)
\tfor i := 2; i < n; i++ {
\t\tif composite[i] {
\t\t\tcontinue
\t\t}
\t\tfmt.Println(i)
\t\tfor k := i * i; k < n; k += i {
\t\t\tcomposite[k] = true
\t\t}
\t}
}

< 0
2
3
5
7
11
13
17
19
23
29
31
37
41
43
47

> rgo run // sort.go
package main

import \"fmt\"

// Insertion sort. A slice is not copied when it is passed: what the function writes is seen outside.
func sort(s []int) {
\tfor i := 1; i < len(s); i++ {
\t\tx := s[i]
\t\tk := i
\t\tfor k > 0 && s[k-1] > x {
\t\t\ts[k] = s[k-1]
\t\t\tk--
\t\t}
\t\ts[k] = x
\t}
}

func main() {
\ts := make([]int, 6)
\tfor i := 0; i < len(s); i++ {
\t\ts[i] = i * 5 % 7
\t}
\tsort(s)
\tfor i := 0; i < len(s); i++ {
\t\tfmt.Println(s[i])
\t}
}

< 0
0
1
3
4
5
6

> rgo run // square_matrix.go
package main

import \"fmt\"

// A matrix of 100 by 100 numbers, in one slice that is spread over several pages.
type Matrix struct {
\tcells []int
\twidth int
}

func matrix(width int) *Matrix {
\treturn &Matrix{make([]int, width*width), width}
}

func transposed(a *Matrix) *Matrix {
\tb := matrix(a.width)
\tfor i := 0; i < a.width; i++ {
\t\tfor j := 0; j < a.width; j++ {
\t\t\tb.cells[j*a.width+i] = a.cells[i*a.width+j]
\t\t}
\t}
\treturn b
}

func row(a *Matrix, i int) int {
\tsum := 0
\tfor j := 0; j < a.width; j++ {
\t\tsum += a.cells[i*a.width+j]
\t}
\treturn sum
}

func main() {
\ta := matrix(100)
\tfor i := 0; i < 100*100; i++ {
\t\ta.cells[i] = i
\t}
\tb := transposed(a)
\tfmt.Println(row(a, 0), row(a, 99), row(b, 0), row(b, 99), b.cells[9801])
}

< 0
4950 994950 495000 504900 198

> rgo run // stack.go
package main

import \"fmt\"

// Package variables start at the zero of their type.
var top *Item
var size int

type Item struct {
\tvalue int
\tbelow *Item
}

func push(value int) {
\ttop = &Item{value, top}
\tsize++
}

func pop() int {
\tvalue := top.value
\ttop = top.below
\tsize--
\treturn value
}

func main() {
\tpush(2)
\tpush(3)
\tpush(4)
\tpush(pop() * pop())
\tpush(pop() + pop())
\tfmt.Println(pop(), size, top == nil)
}

< 0
14 0 true

> rgo run // tree.go
package main

import \"fmt\"

// A binary search tree.
type Tree struct {
\tkey         int
\tleft, right *Tree
}

func insert(t *Tree, key int) *Tree {
\tif t == nil {
\t\treturn &Tree{key: key}
\t}
\tif key < t.key {
\t\tt.left = insert(t.left, key)
\t} else if key > t.key {
\t\tt.right = insert(t.right, key)
\t}
\treturn t
}

func walk(t *Tree, depth int) int {
\tif t == nil {
\t\treturn depth
\t}
\tl := walk(t.left, depth+1)
\tfmt.Println(t.key)
\tr := walk(t.right, depth+1)
\tif l > r {
\t\treturn l
\t}
\treturn r
}

func main() {
\tvar t *Tree
\tfor i := 1; i < 8; i++ {
\t\tt = insert(t, i*3%8)
\t}
\tfmt.Println(\"depth\", walk(t, 0))
}

< 0
1
2
3
4
5
6
7
depth 4

> rgo run // words.go
package main
import \"fmt\"
type N struct { v int; p *N }
func main() { // what the tokens allow
\tfmt.Println(\"tab\\tand \\\"quotes\\\"\", 0x1F, 1_000_000)
\tfmt.Println(true, /* a comment may stand anywhere */ false)
}

< 0
tab\tand \"quotes\" 31 1000000
true false

> rgo run // workers.go
package main

import \"fmt\"

// Three workers take numbers from one channel with a buffer, and each sends its sum when the channel is closed and
// gives zeros.
func worker(numbers, sums chan int) {
\tsum := 0
\tfor n := <-numbers; n != 0; n = <-numbers {
\t\tsum += n
\t}
\tsums <- sum
}

func main() {
\tnumbers := make(chan int, 4)
\tsums := make(chan int)
\tfor i := 0; i < 3; i++ {
\t\tgo worker(numbers, sums)
\t}
\tfor n := 1; n <= 100; n++ {
\t\tnumbers <- n
\t}
\tclose(numbers)
\tfmt.Println(<-sums + <-sums + <-sums)
}

< 0
5050

> rgo run // wrapping.go
package main

import \"fmt\"

// An int has 64 bits and wraps; division truncates towards zero.
func main() {
\tmost := 9223372036854775807
\tleast := most + 1
\tfmt.Println(least, -least, least-1 == most)
\tseven := 7
\ttwo := 2
\tfmt.Println(seven/two, -seven/two, seven%-two, -seven%two)
\tone := 1
\tfmt.Println(least/-one, least%-one)
}

< 0
-9223372036854775808 -9223372036854775808 true
3 -3 1 -1
-9223372036854775808 0
";
