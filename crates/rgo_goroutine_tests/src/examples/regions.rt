//! Examples with what they print, make and do, as `tools/examples --table` writes them.

pub(crate) const REGIONS: &str = "
> regions/apart.go
package main

import \"fmt\"

type Node struct {
\tvalue int
\tnext  *Node
}

func push(l *Node, value int) *Node {
\treturn &Node{value, l}
}

// Two lists that never meet are in two regions: that of `a` is removed
// before the list `b` is made, so one page serves both.
func main() {
\ta := push(push(nil, 1), 2)
\tfmt.Println(a.value, a.next.value)
\tb := push(push(nil, 3), 4)
\tfmt.Println(b.value, b.next.value)
}

< exit regions 2 removed 2 pages 2 returned 2 objects 4 goroutines 1 steps 37
2 1
4 3

> regions/best.go
package main

import \"fmt\"

type Point struct {
\tx int
\ty int
}

func point(i int) *Point {
\treturn &Point{i * 37 % 101, i * 53 % 103}
}

// Any of the points may become the best one, so all of them are in its
// region.
func main() {
\tbest := &Point{0, 0}
\tfor i := 0; i < 1000; i++ {
\t\tp := point(i)
\t\tif p.x+p.y > best.x+best.y {
\t\t\tbest = p
\t\t}
\t}
\tfmt.Println(best.x, best.y)
}

< exit regions 1 removed 1 pages 8 returned 8 objects 1001 goroutines 1 steps 29023
96 101

> regions/best_copied.go
package main

import \"fmt\"

type Point struct {
\tx int
\ty int
}

func point(i int) *Point {
\treturn &Point{i * 37 % 101, i * 53 % 103}
}

// The numbers are copied and the pointer is not, so each point has a region
// of its own.
func main() {
\tbest := &Point{0, 0}
\tfor i := 0; i < 1000; i++ {
\t\tp := point(i)
\t\tif p.x+p.y > best.x+best.y {
\t\t\tbest.x = p.x
\t\t\tbest.y = p.y
\t\t}
\t}
\tfmt.Println(best.x, best.y)
}

< exit regions 1001 removed 1001 pages 1001 returned 1001 objects 1001 goroutines 1 steps 29047
96 101

> regions/current.go
package main

import \"fmt\"

type Job struct {
\tfrom int
\tto   int
}

var current *Job

func work() int {
\ts := 0
\tfor i := current.from; i < current.to; i++ {
\t\ts += i
\t}
\treturn s
}

// A package variable leads to each job in turn, so no job is ever freed.
func main() {
\ts := 0
\tfor i := 0; i < 1000; i++ {
\t\tcurrent = &Job{i, i + 10}
\t\ts += work()
\t}
\tfmt.Println(s)
}

< exit regions 0 removed 0 pages 8 returned 0 objects 1000 goroutines 1 steps 126009
5040000

> regions/current_passed.go
package main

import \"fmt\"

type Job struct {
\tfrom int
\tto   int
}

func work(current *Job) int {
\ts := 0
\tfor i := current.from; i < current.to; i++ {
\t\ts += i
\t}
\treturn s
}

// Each job is passed as a parameter, and removed by the function that works
// on it.
func main() {
\ts := 0
\tfor i := 0; i < 1000; i++ {
\t\ts += work(&Job{i, i + 10})
\t}
\tfmt.Println(s)
}

< exit regions 1000 removed 1000 pages 1000 returned 1000 objects 1000 goroutines 1 steps 113009
5040000

> regions/either.go
package main

import \"fmt\"

type Box struct {
\tvalue int
}

func larger(a, b *Box) *Box {
\tif a.value > b.value {
\t\treturn a
\t}
\treturn b
}

// The result may be either argument. So both are in its region, and the
// smaller box lives as long as the larger one.
func main() {
\ta := &Box{3}
\tb := &Box{4}
\tc := &Box{5}
\td := larger(a, b)
\tfmt.Println(c.value)
\tfmt.Println(d.value)
}

< exit regions 2 removed 2 pages 2 returned 2 objects 3 goroutines 1 steps 24
5
4

> regions/lists.go
package main

import \"fmt\"

type Node struct {
\tvalue int
\tnext  *Node
}

func list(n int) *Node {
\tvar l *Node
\tfor i := 0; i < n; i++ {
\t\tl = &Node{i, l}
\t}
\treturn l
}

func sum(l *Node) int {
\ts := 0
\tfor l != nil {
\t\ts += l.value
\t\tl = l.next
\t}
\treturn s
}

// A thousand lists, each in a region of its own, which is removed when
// `sum` has read the last node.
func main() {
\ttotal := 0
\tfor i := 0; i < 1000; i++ {
\t\ttotal += sum(list(10))
\t}
\tfmt.Println(total)
}

< exit regions 1000 removed 1000 pages 1000 returned 1000 objects 10000 goroutines 1 steps 214009
45000

> regions/messages.go
package main

import \"fmt\"

type Message struct {
\tkey   int
\tvalue int
}

func produce(c chan *Message, from, to int) {
\tfor i := from; i < to; i++ {
\t\tc <- &Message{i, i * i}
\t}
}

// What is sent through a channel is in the region of the channel, so all
// messages live as long as the channel does.
func main() {
\tc := make(chan *Message)
\tgo produce(c, 0, 1000)
\ts := 0
\tfor i := 0; i < 1000; i++ {
\t\tm := <-c
\t\ts += m.value - m.key
\t}
\tfmt.Println(s)
}

< exit regions 1 removed 1 pages 9 returned 9 objects 1001 goroutines 2 steps 24019
332334000

> regions/messages_batches.go
package main

import \"fmt\"

type Message struct {
\tkey   int
\tvalue int
}

func produce(c chan *Message, from, to int) {
\tfor i := from; i < to; i++ {
\t\tc <- &Message{i, i * i}
\t}
}

func batch(from, to int) int {
\tc := make(chan *Message)
\tgo produce(c, from, to)
\ts := 0
\tfor i := from; i < to; i++ {
\t\tm := <-c
\t\ts += m.value - m.key
\t}
\treturn s
}

// Each batch has a channel of its own, and its messages are freed with that
// channel.
func main() {
\ts := 0
\tfor i := 0; i < 1000; i += 100 {
\t\ts += batch(i, i+100)
\t}
\tfmt.Println(s)
}

< exit regions 10 removed 10 pages 20 returned 20 objects 1010 goroutines 11 steps 23269
332334000

> regions/object.go
package main

import \"fmt\"

type Point struct {
\tx int
\ty int
}

// One object: its region is removed after its last field was read, and
// before the print.
func main() {
\tp := &Point{3, 4}
\tfmt.Println(p.x*p.x + p.y*p.y)
}

< exit regions 1 removed 1 pages 1 returned 1 objects 1 goroutines 1 steps 15
25

> regions/package_variable.go
package main

import \"fmt\"

type Node struct {
\tvalue int
\tnext  *Node
}

var last *Node

// What a package variable can reach is in the global region, which is never
// removed: every node stays.
func main() {
\tfor i := 0; i < 1000; i++ {
\t\tlast = &Node{i, nil}
\t}
\tfmt.Println(last.value)
}

< exit regions 0 removed 0 pages 8 returned 0 objects 1000 goroutines 1 steps 12009
999

> regions/queue.go
package main

import \"fmt\"

type Node struct {
\tvalue int
\tnext  *Node
}

type Queue struct {
\tfirst *Node
\tlast  *Node
}

func add(q *Queue, value int) {
\tn := &Node{value, nil}
\tif q.first == nil {
\t\tq.first = n
\t} else {
\t\tq.last.next = n
\t}
\tq.last = n
}

func take(q *Queue) int {
\tn := q.first
\tq.first = n.next
\treturn n.value
}

// A container keeps what has left it: the queue never has more than one
// value, but all its nodes are in its region.
func main() {
\tq := &Queue{nil, nil}
\ts := 0
\tfor i := 0; i < 1000; i++ {
\t\tadd(q, i)
\t\ts += take(q)
\t}
\tfmt.Println(s)
}

< exit regions 1 removed 1 pages 8 returned 8 objects 1001 goroutines 1 steps 29015
499500

> regions/queue_renewed.go
package main

import \"fmt\"

type Node struct {
\tvalue int
\tnext  *Node
}

type Queue struct {
\tfirst *Node
\tlast  *Node
}

func add(q *Queue, value int) {
\tn := &Node{value, nil}
\tif q.first == nil {
\t\tq.first = n
\t} else {
\t\tq.last.next = n
\t}
\tq.last = n
}

func take(q *Queue) int {
\tn := q.first
\tq.first = n.next
\treturn n.value
}

// What is left of a queue, in a new one.
func renewed(old *Queue) *Queue {
\tq := &Queue{nil, nil}
\tfor n := old.first; n != nil; n = n.next {
\t\tadd(q, n.value)
\t}
\treturn q
}

// The way out: now and then what is left moves to a new container, and the
// old region is removed.
func work(q *Queue, from, to int) int {
\ts := 0
\tfor i := from; i < to; i++ {
\t\tadd(q, i)
\t\ts += take(q)
\t}
\treturn s
}

func rest(q *Queue, from int) int {
\tif from == 1000 {
\t\treturn 0
\t}
\ts := work(q, from, from+100)
\treturn s + rest(renewed(q), from+100)
}

func main() {
\tfmt.Println(rest(&Queue{nil, nil}, 0))
}

< exit regions 11 removed 11 pages 11 returned 11 objects 1011 goroutines 1 steps 28324
499500

> regions/queue_reused.go
package main

import \"fmt\"

type Node struct {
\tvalue int
\tnext  *Node
}

type Queue struct {
\tfirst *Node
\tlast  *Node
\tspare *Node
}

// A node for a value: one that is spare, or a new one.
func node(q *Queue, value int) *Node {
\tn := q.spare
\tif n == nil {
\t\treturn &Node{value, nil}
\t}
\tq.spare = n.next
\tn.value = value
\tn.next = nil
\treturn n
}

func add(q *Queue, value int) {
\tn := node(q, value)
\tif q.first == nil {
\t\tq.first = n
\t} else {
\t\tq.last.next = n
\t}
\tq.last = n
}

func take(q *Queue) int {
\tn := q.first
\tq.first = n.next
\tn.next = q.spare
\tq.spare = n
\treturn n.value
}

// The queue keeps the nodes that have left it as spare ones, and uses them
// again.
func main() {
\tq := &Queue{nil, nil, nil}
\ts := 0
\tfor i := 0; i < 1000; i++ {
\t\tadd(q, i)
\t\ts += take(q)
\t}
\tfmt.Println(s)
}

< exit regions 1 removed 1 pages 1 returned 1 objects 2 goroutines 1 steps 39016
499500

> regions/report.go
package main

import \"fmt\"

type Node struct {
\tvalue int
\tnext  *Node
}

type Report struct {
\ttotal int
\tfirst *Node
}

func list(n int) *Node {
\tvar l *Node
\tfor i := 0; i < n; i++ {
\t\tl = &Node{i, l}
\t}
\treturn l
}

func sum(l *Node) int {
\ts := 0
\tfor l != nil {
\t\ts += l.value
\t\tl = l.next
\t}
\treturn s
}

// The report points to one list only, but the assignment puts every `l`
// into the region of the report.
func main() {
\tr := &Report{0, nil}
\tfor i := 0; i < 100; i++ {
\t\tl := list(10)
\t\tr.total += sum(l)
\t\tif i == 0 {
\t\t\tr.first = l
\t\t}
\t}
\tfmt.Println(r.total, sum(r.first))
}

< exit regions 1 removed 1 pages 8 returned 8 objects 1001 goroutines 1 steps 22013
4500 45

> regions/report_copied.go
package main

import \"fmt\"

type Node struct {
\tvalue int
\tnext  *Node
}

type Report struct {
\ttotal int
\tfirst *Node
}

func list(n int) *Node {
\tvar l *Node
\tfor i := 0; i < n; i++ {
\t\tl = &Node{i, l}
\t}
\treturn l
}

func sum(l *Node) int {
\ts := 0
\tfor l != nil {
\t\ts += l.value
\t\tl = l.next
\t}
\treturn s
}

func copied(l *Node) *Node {
\tif l == nil {
\t\treturn nil
\t}
\treturn &Node{l.value, copied(l.next)}
}

// The report has a copy of the one list that it keeps, so each list has a
// region of its own.
func main() {
\tr := &Report{0, nil}
\tfor i := 0; i < 100; i++ {
\t\tl := list(10)
\t\tr.total += sum(l)
\t\tif i == 0 {
\t\t\tr.first = copied(l)
\t\t}
\t}
\tfmt.Println(r.total, sum(r.first))
}

< exit regions 101 removed 101 pages 101 returned 101 objects 1011 goroutines 1 steps 22108
4500 45

> regions/result.go
package main

import \"fmt\"

type Box struct {
\tvalue int
}

func next(a *Box) *Box {
\treturn &Box{a.value + 1}
}

// The result lies in a region that the caller passes. With a variable for
// each, the region of `a` is left to `next`, which removes it once it has
// read `a.value`.
func main() {
\ta := &Box{1}
\tb := next(a)
\tfmt.Println(b.value)
}

< exit regions 2 removed 2 pages 2 returned 2 objects 2 goroutines 1 steps 15
2

> regions/scratch.go
package main

import \"fmt\"

func total(n int) int {
\tif n == 0 {
\t\treturn 0
\t}
\trow := make([]int, n)
\tfor i := 0; i < n; i++ {
\t\trow[i] = i
\t}
\treturn total(n-1) + row[n-1]
}

// Each call has a region for its slice. It is read after the inner call, so
// the regions of all calls live at one time.
func main() {
\tfmt.Println(total(100))
}

< exit regions 100 removed 100 pages 100 returned 100 objects 100 goroutines 1 steps 37059
4950

> regions/server.go
package main

import \"fmt\"

type Request struct {
\tn     int
\treply chan int
}

func client(requests chan *Request, sums chan int) {
\tsum := 0
\tfor i := 0; i < 250; i++ {
\t\tr := &Request{i, make(chan int)}
\t\trequests <- r
\t\tsum += <-r.reply
\t}
\tsums <- sum
}

func server(requests chan *Request) {
\tfor {
\t\tr := <-requests
\t\tr.reply <- r.n * r.n
\t}
}

// All requests go through one channel, so they and the channels of their
// replies are in its region, which ends with the server: never.
func main() {
\trequests := make(chan *Request)
\tsums := make(chan int)
\tgo server(requests)
\tfor k := 0; k < 4; k++ {
\t\tgo client(requests, sums)
\t}
\tfmt.Println(<-sums + <-sums + <-sums + <-sums)
}

< exit regions 2 removed 1 pages 22 returned 1 objects 2002 goroutines 6 steps 24085
20708500

> regions/server_clients.go
package main

import \"fmt\"

type Request struct {
\tn     int
\treply chan int
}

func server(requests chan *Request) {
\tfor r := <-requests; r != nil; r = <-requests {
\t\tr.reply <- r.n * r.n
\t}
}

func client(from, to int) int {
\trequests := make(chan *Request)
\tgo server(requests)
\tsum := 0
\tfor i := from; i < to; i++ {
\t\tr := &Request{i, make(chan int)}
\t\trequests <- r
\t\tsum += <-r.reply
\t}
\tclose(requests)
\treturn sum
}

// A channel for each client: its requests are gone when it has left. Until
// then they stay, so a client asks for a while only.
func main() {
\tsum := 0
\tfor k := 0; k < 40; k++ {
\t\tsum += client(k%10*25, k%10*25+25)
\t}
\tfmt.Println(sum)
}

< exit regions 40 removed 40 pages 40 returned 40 objects 2040 goroutines 41 steps 27489
20708500

> regions/server_jobs.go
package main

import \"fmt\"

type Request struct {
\tn     int
\treply chan int
}

func serve(r *Request) {
\tr.reply <- r.n * r.n
}

func ask(n int) int {
\tr := &Request{n, make(chan int)}
\tgo serve(r)
\treturn <-r.reply
}

func client(sums chan int) {
\tsum := 0
\tfor i := 0; i < 250; i++ {
\t\tsum += ask(i)
\t}
\tsums <- sum
}

// A function for each job: a request and its reply are in a region of their
// own, which is gone when both sides have used it.
func main() {
\tsums := make(chan int)
\tfor k := 0; k < 4; k++ {
\t\tgo client(sums)
\t}
\tfmt.Println(<-sums + <-sums + <-sums + <-sums)
}

< exit regions 1001 removed 1001 pages 1001 returned 1001 objects 2001 goroutines 1005 steps 25081
20708500

> regions/server_numbers.go
package main

import \"fmt\"

func client(k int, requests chan int, replies []chan int, sums chan int) {
\tsum := 0
\tfor i := 0; i < 250; i++ {
\t\trequests <- i*len(replies) + k
\t\tsum += <-replies[k]
\t}
\tsums <- sum
}

func server(requests chan int, replies []chan int) {
\tfor {
\t\tr := <-requests
\t\tn := r / len(replies)
\t\treplies[r%len(replies)] <- n * n
\t}
}

// Numbers in place of pointers: a request is one number, made of what is
// asked and of who asks. Each client has one channel for all its replies.
func main() {
\trequests := make(chan int)
\treplies := make([]chan int, 4)
\tfor k := 0; k < len(replies); k++ {
\t\treplies[k] = make(chan int)
\t}
\tsums := make(chan int)
\tgo server(requests, replies)
\tfor k := 0; k < len(replies); k++ {
\t\tgo client(k, requests, replies, sums)
\t}
\tfmt.Println(<-sums + <-sums + <-sums + <-sums)
}

< exit regions 3 removed 1 pages 3 returned 1 objects 7 goroutines 6 steps 24133
20708500

> regions/server_rebuilt.go
package main

import \"fmt\"

type Request struct {
\tn     int
\treply chan int
}

func client(requests chan *Request, from, to int, sums chan int) {
\tsum := 0
\tfor i := from; i < to; i++ {
\t\tr := &Request{i, make(chan int)}
\t\trequests <- r
\t\tsum += <-r.reply
\t}
\tsums <- sum
}

func server(requests chan *Request) {
\tfor r := <-requests; r != nil; r = <-requests {
\t\tr.reply <- r.n * r.n
\t}
}

func pool(from, to int) int {
\trequests := make(chan *Request)
\tsums := make(chan int)
\tfor k := 0; k < 2; k++ {
\t\tgo server(requests)
\t}
\tfor k := 0; k < 4; k++ {
\t\tgo client(requests, from, to, sums)
\t}
\tsum := <-sums + <-sums + <-sums + <-sums
\tclose(requests)
\treturn sum
}

// A pool that is rebuilt: after a hundred requests the channel is closed, the
// servers and clients end, and new ones begin with a new channel.
func main() {
\tsum := 0
\tfor i := 0; i < 250; i += 25 {
\t\tsum += pool(i, i+25)
\t}
\tfmt.Println(sum)
}

< exit regions 20 removed 20 pages 60 returned 60 objects 2020 goroutines 61 steps 27229
20708500

> regions/shared.go
package main

import \"fmt\"

type Node struct {
\tvalue int
\tnext  *Node
}

func list(n int) *Node {
\tvar l *Node
\tfor i := 0; i < n; i++ {
\t\tl = &Node{i, l}
\t}
\treturn l
}

func sum(l *Node, answers chan int) {
\ts := 0
\tfor l != nil {
\t\ts += l.value
\t\tl = l.next
\t}
\tanswers <- s
}

// Two goroutines read one list. `main` gives up its stake when it has
// started both; the last of the two removes the list.
func main() {
\tl := list(10)
\tanswers := make(chan int)
\tgo sum(l, answers)
\tgo sum(l, answers)
\tfmt.Println(<-answers + <-answers)
}

< exit regions 2 removed 2 pages 2 returned 2 objects 11 goroutines 3 steps 311
90

> regions/state.go
package main

import \"fmt\"

type State struct {
\ta int
\tb int
}

func step(s *State) *State {
\treturn &State{s.b, (s.a + s.b) % 1000}
}

// The old state and the new one have the same variable, so all states are
// in its region.
func main() {
\ts := &State{0, 1}
\tfor i := 0; i < 1000; i += 2 {
\t\ts = step(s)
\t\ts = step(s)
\t}
\tfmt.Println(s.a)
}

< exit regions 1 removed 1 pages 8 returned 8 objects 1001 goroutines 1 steps 15514
875

> regions/state_in_turns.go
package main

import \"fmt\"

type State struct {
\ta int
\tb int
}

func step(s *State) *State {
\treturn &State{s.b, (s.a + s.b) % 1000}
}

// The old state and the new one have two variables in turn, so `step`
// removes each state when it has read it.
func main() {
\ts := &State{0, 1}
\tfor i := 0; i < 1000; i += 2 {
\t\tt := step(s)
\t\ts = step(t)
\t}
\tfmt.Println(s.a)
}

< exit regions 1001 removed 1001 pages 1001 returned 1001 objects 1001 goroutines 1 steps 15514
875

> regions/tree.go
package main

import \"fmt\"

type Tree struct {
\tleft  *Tree
\tright *Tree
}

func grow(depth int) *Tree {
\tif depth == 0 {
\t\treturn nil
\t}
\treturn &Tree{grow(depth - 1), grow(depth - 1)}
}

func count(t *Tree) int {
\tif t == nil {
\t\treturn 0
\t}
\treturn 1 + count(t.left) + count(t.right)
}

// All nodes of a tree share its region: 1,023 nodes of two words in eight
// pages of 256 words.
func main() {
\tfmt.Println(count(grow(10)))
}

< exit regions 1 removed 1 pages 8 returned 8 objects 1023 goroutines 1 steps 32750
1023

> regions/twice.go
package main

import \"fmt\"

type Box struct {
\tvalue int
}

func add(a, b *Box) int {
\ts := a.value
\treturn s + b.value
}

// `add` is done with the region of `a` before it reads `b`, but both are
// one region here: the call protects it.
func main() {
\tx := &Box{21}
\tfmt.Println(add(x, x))
}

< exit regions 1 removed 1 pages 1 returned 1 objects 1 goroutines 1 steps 12
42

> regions/workers.go
package main

import \"fmt\"

type Job struct {
\tn      int
\tanswer chan int
}

func square(j *Job) {
\tj.answer <- j.n * j.n
}

// Each job is in a region of its own with its channel, and has a stake of
// each of its two goroutines. The last of the two removes it.
func main() {
\tsum := 0
\tfor i := 1; i <= 5; i++ {
\t\tj := &Job{i, make(chan int)}
\t\tgo square(j)
\t\tsum += <-j.answer
\t}
\tfmt.Println(sum)
}

< exit regions 5 removed 5 pages 5 returned 5 objects 10 goroutines 6 steps 124
55
";
