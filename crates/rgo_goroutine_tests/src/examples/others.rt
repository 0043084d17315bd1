//! Examples with what they print, make and do, as `tools/examples --table` writes them.

pub(crate) const OTHERS: &str = "
> failing/deadlock.go
package main

import \"fmt\"

func main() {
\tc := make(chan int)
\tfmt.Println(\"nobody sends\")
\tfmt.Println(<-c)
}

< deadlock regions 1 removed 0 pages 1 returned 0 objects 1 goroutines 1 steps 4
nobody sends

> failing/index_out_of_range.go
package main

import \"fmt\"

func main() {
\ts := make([]int, 3)
\tfmt.Println(len(s))
\ts[len(s)] = 1
}

< trap regions 1 removed 0 pages 1 returned 0 objects 1 goroutines 1 steps 8
3

> porting/cache/after.go
package main

import \"fmt\"

var capacity, clients int

// entry is an element of the list of entries, from the newest to the oldest.
type entry struct {
\tkey, value int
\tprev, next *entry
}

// Stats counts what a cache was asked.
type Stats struct {
\thits, misses, evictions int
}

// Cache keeps the entries that were used last. The list is searched for a key, since it is short.
type Cache struct {
\tlock  chan bool
\thead  *entry
\tcount int
\tsize  int
\tstats *Stats
}

// Answer is what a cache has for a key.
type Answer struct {
\tvalue int
\tfound bool
}

func newCache(size int) *Cache {
\thead := &entry{}
\thead.prev = head
\thead.next = head
\treturn &Cache{make(chan bool, 1), head, 0, size, &Stats{}}
}

func unlink(e *entry) {
\te.prev.next = e.next
\te.next.prev = e.prev
}

func pushFront(c *Cache, e *entry) {
\te.prev = c.head
\te.next = c.head.next
\te.prev.next = e
\te.next.prev = e
}

// find returns the entry of a key, or nil.
func find(c *Cache, key int) *entry {
\tfor e := c.head.next; e != c.head; e = e.next {
\t\tif e.key == key {
\t\t\treturn e
\t\t}
\t}
\treturn nil
}

func get(c *Cache, key int) *Answer {
\tc.lock <- true
\tanswer := &Answer{}
\te := find(c, key)
\tif e == nil {
\t\tc.stats.misses++
\t} else {
\t\tc.stats.hits++
\t\tunlink(e)
\t\tpushFront(c, e)
\t\tanswer.value = e.value
\t\tanswer.found = true
\t}
\t<-c.lock
\treturn answer
}

// fresh returns an entry for a key that is not there: the oldest one is used again if the cache is full.
func fresh(c *Cache) *entry {
\tif c.count < c.size {
\t\tc.count++
\t\treturn &entry{}
\t}
\toldest := c.head.prev
\tunlink(oldest)
\tc.stats.evictions++
\treturn oldest
}

func put(c *Cache, key, value int) {
\tc.lock <- true
\te := find(c, key)
\tif e != nil {
\t\tunlink(e)
\t} else {
\t\te = fresh(c)
\t}
\te.key = key
\te.value = value
\tpushFront(c, e)
\t<-c.lock
}

func square(c *Cache, n int) int {
\ta := get(c, n)
\tif a.found {
\t\treturn a.value
\t}
\tv := n * n
\tput(c, n, v)
\treturn v
}

func client(c *Cache, results []int, i int, done chan bool) {
\tfor n := 0; n < 5; n++ {
\t\tresults[i] += square(c, n+i)
\t}
\tdone <- true
}

func main() {
\tcapacity = 5
\tclients = 4
\tcache := newCache(capacity)
\tsum := 0
\tfor i := 0; i < 100; i++ {
\t\tsum += square(cache, i*i%13)
\t}
\tfmt.Println(\"sum\", sum)
\tfmt.Println(\"hits\", cache.stats.hits, \"misses\", cache.stats.misses, \"evictions\", cache.stats.evictions)

\tfor e := cache.head.next; e != cache.head; e = e.next {
\t\tfmt.Println(e.value)
\t}

\tdone := make(chan bool)
\tresults := make([]int, clients)
\tfor i := 0; i < len(results); i++ {
\t\tgo client(cache, results, i, done)
\t}
\tfor i := 0; i < clients; i++ {
\t\t<-done
\t}
\tfor i := 0; i < len(results); i++ {
\t\tfmt.Println(\"client\", i, results[i])
\t}
}

< exit
sum 5509
hits 65 misses 35 evictions 30
144
100
9
81
16
client 0 30
client 1 55
client 2 90
client 3 135

> porting/graph/after.go
package main

import \"fmt\"

var infinity int

// Edge is an element of the list of edges that leave a node.
type Edge struct {
\tto, weight int
\tnext       *Edge
}

// Graph has the first and the last edge that leaves each of its nodes.
type Graph struct {
\tfirst, last []*Edge
}

func newGraph(n int) *Graph {
\treturn &Graph{make([]*Edge, n), make([]*Edge, n)}
}

func addEdge(g *Graph, from, to, weight int) {
\te := &Edge{to, weight, nil}
\tif g.first[from] == nil {
\t\tg.first[from] = e
\t} else {
\t\tg.last[from].next = e
\t}
\tg.last[from] = e
}

func connect(g *Graph, a, b, weight int) {
\taddEdge(g, a, b, weight)
\taddEdge(g, b, a, weight)
}

// Queue is a heap of nodes by their distances.
type Queue struct {
\tnodes, distances []int
\tcount            int
}

func swap(q *Queue, i, j int) {
\tnode := q.nodes[i]
\tq.nodes[i] = q.nodes[j]
\tq.nodes[j] = node
\tdistance := q.distances[i]
\tq.distances[i] = q.distances[j]
\tq.distances[j] = distance
}

func push(q *Queue, node, distance int) {
\ti := q.count
\tq.nodes[i] = node
\tq.distances[i] = distance
\tq.count++
\tfor i > 0 && q.distances[i] < q.distances[(i-1)/2] {
\t\tswap(q, i, (i-1)/2)
\t\ti = (i - 1) / 2
\t}
}

// drop removes the first element.
func drop(q *Queue) {
\tq.count--
\tswap(q, 0, q.count)
\ti := 0
\tfor 2*i+1 < q.count {
\t\tchild := 2*i + 1
\t\tif child+1 < q.count && q.distances[child+1] < q.distances[child] {
\t\t\tchild++
\t\t}
\t\tif q.distances[i] <= q.distances[child] {
\t\t\treturn
\t\t}
\t\tswap(q, i, child)
\t\ti = child
\t}
}

// Paths has the distances from a node, and from where each node is reached.
type Paths struct {
\tdist, prev []int
}

func shortest(g *Graph, from int) *Paths {
\tn := len(g.first)
\tp := &Paths{make([]int, n), make([]int, n)}
\tfor i := 0; i < n; i++ {
\t\tp.dist[i] = infinity
\t\tp.prev[i] = -1
\t}
\tp.dist[from] = 0
\tq := &Queue{make([]int, 200), make([]int, 200), 0}
\tpush(q, from, 0)
\tfor q.count > 0 {
\t\tnode := q.nodes[0]
\t\tdistance := q.distances[0]
\t\tdrop(q)
\t\tif distance == p.dist[node] {
\t\t\trelax(g, p, q, node)
\t\t}
\t}
\treturn p
}

func relax(g *Graph, p *Paths, q *Queue, node int) {
\tfor e := g.first[node]; e != nil; e = e.next {
\t\td := p.dist[node] + e.weight
\t\tif d < p.dist[e.to] {
\t\t\tp.dist[e.to] = d
\t\t\tp.prev[e.to] = node
\t\t\tpush(q, e.to, d)
\t\t}
\t}
}

func printPath(prev []int, to int) {
\tif prev[to] != -1 {
\t\tprintPath(prev, prev[to])
\t}
\tfmt.Println(\"by\", to)
}

func visit(g *Graph, seen []bool, n int) {
\tseen[n] = true
\tfor e := g.first[n]; e != nil; e = e.next {
\t\tif !seen[e.to] {
\t\t\tvisit(g, seen, e.to)
\t\t}
\t}
}

// components counts the parts of the graph that hang together, by depth-first search.
func components(g *Graph) int {
\tseen := make([]bool, len(g.first))
\tcount := 0
\tfor n := 0; n < len(g.first); n++ {
\t\tif !seen[n] {
\t\t\tcount++
\t\t\tvisit(g, seen, n)
\t\t}
\t}
\treturn count
}

type Random struct {
\tseed int
}

func next(r *Random, limit int) int {
\tr.seed = (r.seed*1664525 + 1013904223) % 4294967296
\treturn r.seed / 65536 % limit
}

func main() {
\tinfinity = 9223372036854775807
\tn := 40
\tg := newGraph(n)
\tr := &Random{7}
\tfor i := 0; i < 60; i++ {
\t\ta := next(r, n-4)
\t\tb := next(r, n-4)
\t\tif a != b {
\t\t\tconnect(g, a, b, 1+next(r, 20))
\t\t}
\t}
\tp := shortest(g, 0)
\treached := 0
\tfarthest := 0
\tfor i := 0; i < n; i++ {
\t\tif p.dist[i] != infinity {
\t\t\treached++
\t\t\tif p.dist[i] > p.dist[farthest] {
\t\t\t\tfarthest = i
\t\t\t}
\t\t}
\t}
\tfmt.Println(\"reached\", reached, \"of\", n)
\tfmt.Println(\"components\", components(g))
\tfmt.Println(\"farthest\", farthest, \"at\", p.dist[farthest])
\tprintPath(p.prev, farthest)
}

< exit regions 5 removed 5 pages 7 returned 7 objects 131 goroutines 1 steps 20577
reached 31 of 40
components 10
farthest 26 at 39
by 0
by 4
by 34
by 26

> porting/parser/after.go
package main

import \"fmt\"

// The kinds of tokens, and the codes of characters: a digit d is 10 + d.
var number, operator, open, closing, end int
var plus, minus, times, over, rest, opened, closed, blank int

func name() {
\toperator = 1
\topen = 2
\tclosing = 3
\tend = 4
\tplus = 20
\tminus = 21
\ttimes = 22
\tover = 23
\trest = 24
\topened = 30
\tclosed = 31
\tblank = 40
}

// Text is a text by the codes of its characters.
type Text struct {
\tcodes []int
\tcount int
}

// add appends the characters of a number that has two digits for each.
func add(t *Text, packed int) {
\tfirst := 1
\tfor packed/first >= 100 {
\t\tfirst *= 100
\t}
\tfor first > 0 {
\t\tt.codes[t.count] = packed / first % 100
\t\tt.count++
\t\tfirst /= 100
\t}
}

type Token struct {
\tkind, op, value int
}

// Node is a tree of an expression.
type Node struct {
\top, value   int
\tleft, right *Node
}

// Parser has the tokens of a text. It fails at the first fault, and then its trees are nil.
type Parser struct {
\ttokens []*Token
\tcount  int
\tpos    int
\tfailed bool
}

func push(p *Parser, kind, op, value int) {
\tp.tokens[p.count] = &Token{kind, op, value}
\tp.count++
}

func isDigit(c int) bool { return c >= 10 && c <= 19 }

func isOperator(c int) bool { return c >= plus && c <= rest }

// lexNumber pushes the number that begins at i, and returns where it ends.
func lexNumber(p *Parser, t *Text, i int) int {
\tn := 0
\tfor i < t.count && isDigit(t.codes[i]) {
\t\tn = n*10 + t.codes[i] - 10
\t\ti++
\t}
\tpush(p, number, 0, n)
\treturn i
}

func lex(t *Text) *Parser {
\tp := &Parser{make([]*Token, t.count+1), 0, 0, false}
\ti := 0
\tfor i < t.count {
\t\tc := t.codes[i]
\t\tif isDigit(c) {
\t\t\ti = lexNumber(p, t, i) - 1
\t\t} else if isOperator(c) {
\t\t\tpush(p, operator, c, 0)
\t\t} else if c == opened {
\t\t\tpush(p, open, 0, 0)
\t\t} else if c == closed {
\t\t\tpush(p, closing, 0, 0)
\t\t} else if c != blank {
\t\t\tp.failed = true
\t\t}
\t\ti++
\t}
\tpush(p, end, 0, 0)
\treturn p
}

func peek(p *Parser) *Token { return p.tokens[p.pos] }

// take returns the next token. The last one, which ends the text, is taken again and again.
func take(p *Parser) *Token {
\tt := p.tokens[p.pos]
\tif t.kind != end {
\t\tp.pos++
\t}
\treturn t
}

func level(op int) int {
\tif op == plus || op == minus {
\t\treturn 1
\t}
\treturn 2
}

func expression(p *Parser, least int) *Node {
\tleft := operand(p)
\tfor !p.failed && peek(p).kind == operator && level(peek(p).op) >= least {
\t\top := take(p).op
\t\tright := expression(p, level(op)+1)
\t\tleft = &Node{op, 0, left, right}
\t}
\treturn left
}

func operand(p *Parser) *Node {
\tt := take(p)
\tif t.kind == number {
\t\treturn &Node{0, t.value, nil, nil}
\t}
\tif t.kind == open {
\t\tn := expression(p, 1)
\t\tif take(p).kind != closing {
\t\t\tp.failed = true
\t\t}
\t\treturn n
\t}
\tp.failed = true
\treturn nil
}

// Outcome says whether an evaluation divided by zero.
type Outcome struct {
\tfailed bool
}

func eval(n *Node, o *Outcome) int {
\tif n.op == 0 {
\t\treturn n.value
\t}
\ta := eval(n.left, o)
\tb := eval(n.right, o)
\tif n.op == plus {
\t\treturn a + b
\t} else if n.op == minus {
\t\treturn a - b
\t} else if n.op == times {
\t\treturn a * b
\t}
\tif b == 0 {
\t\to.failed = true
\t\treturn 0
\t}
\tif n.op == over {
\t\treturn a / b
\t}
\treturn a % b
}

func calculate(t *Text) {
\tp := lex(t)
\tif p.failed {
\t\tfmt.Println(\"error\")
\t\treturn
\t}
\ttree := expression(p, 1)
\tif p.failed || peek(p).kind != end {
\t\tfmt.Println(\"error\")
\t\treturn
\t}
\to := &Outcome{}
\tv := eval(tree, o)
\tif o.failed {
\t\tfmt.Println(\"divided by zero\")
\t} else {
\t\tfmt.Println(v)
\t}
}

// text returns one of the texts.
func text(i int) *Text {
\tt := &Text{make([]int, 40), 0}
\tif i == 0 {
\t\t// 1 + 2 * 3
\t\tadd(t, 114020401240224013)
\t} else if i == 1 {
\t\t// (1 + 2) * 3
\t\tadd(t, 30114020401231)
\t\tadd(t, 40224013)
\t} else if i == 2 {
\t\t// 100 / 7 % 4 - 20
\t\tadd(t, 111010402340174024)
\t\tadd(t, 40144021401210)
\t} else if i == 3 {
\t\t// 1 / (2 - 2)
\t\tadd(t, 11402340)
\t\tadd(t, 30124021401231)
\t} else if i == 4 {
\t\t// 2 * (3
\t\tadd(t, 124022403013)
\t} else {
\t\t// 4 ? 5
\t\tadd(t, 1440504015)
\t}
\treturn t
}

func main() {
\tname()
\tfor i := 0; i < 6; i++ {
\t\tcalculate(text(i))
\t}
}

< exit regions 21 removed 21 pages 21 returned 21 objects 91 goroutines 1 steps 7129
7
9
-18
divided by zero
error
error

> porting/pool/after.go
package main

import \"fmt\"

var workers int

// Job asks for the length of the Collatz sequence of a number.
type Job struct {
\tid int
\tn  int
}

// Collatz is what is known of a sequence. Its error is 0, or 1 for a negative number.
type Collatz struct {
\tsteps, peak, err int
}

// Result is the answer to a job.
type Result struct {
\tjob     *Job
\tcollatz *Collatz
\tworker  int
}

// Pool runs jobs on several workers. They wait for more until main returns.
type Pool struct {
\tjobs    chan *Job
\tresults chan *Result
}

func newPool(n int) *Pool {
\tp := &Pool{make(chan *Job, n), make(chan *Result, n)}
\tfor id := 1; id <= n; id++ {
\t\tgo work(p, id)
\t}
\treturn p
}

func work(p *Pool, id int) {
\tfor {
\t\tjob := <-p.jobs
\t\tp.results <- &Result{job, collatz(job.n), id}
\t}
}

func collatz(n int) *Collatz {
\tif n < 0 {
\t\treturn &Collatz{0, 0, 1}
\t}
\tsteps := 0
\tpeak := n
\tfor n > 1 {
\t\tif n%2 == 0 {
\t\t\tn /= 2
\t\t} else {
\t\t\tn = 3*n + 1
\t\t}
\t\tif n > peak {
\t\t\tpeak = n
\t\t}
\t\tsteps++
\t}
\treturn &Collatz{steps, peak, 0}
}

func produce(jobs chan *Job, numbers []int) {
\tfor i := 0; i < len(numbers); i++ {
\t\tjobs <- &Job{i, numbers[i]}
\t}
}

func someNumbers() []int {
\tnumbers := make([]int, 8)
\tnumbers[0] = 27
\tnumbers[2] = 97
\tnumbers[3] = 871
\tnumbers[4] = -5
\tnumbers[5] = 6171
\tnumbers[6] = 1
\tnumbers[7] = 703
\treturn numbers
}

func main() {
\tworkers = 3
\tnumbers := someNumbers()
\tpool := newPool(workers)
\tgo produce(pool.jobs, numbers)

\t// The results by the number of their job; nil for a job that failed.
\tresults := make([]*Result, len(numbers))
\tdone := make([]int, workers+1)
\tfailed := 0
\tfor i := 0; i < len(numbers); i++ {
\t\tr := <-pool.results
\t\tdone[r.worker]++
\t\tif r.collatz.err != 0 {
\t\t\tfailed++
\t\t} else {
\t\t\tresults[r.job.id] = r
\t\t}
\t}

\tvar longest *Result
\tfor i := 0; i < len(results); i++ {
\t\tr := results[i]
\t\tif r != nil {
\t\t\tfmt.Println(r.job.n, \"needs\", r.collatz.steps, \"steps, peak\", r.collatz.peak)
\t\t\tif longest == nil || r.collatz.steps > longest.collatz.steps {
\t\t\t\tlongest = r
\t\t\t}
\t\t}
\t}
\ttotal := 0
\tfor i := 1; i <= workers; i++ {
\t\ttotal += done[i]
\t}
\tfmt.Println(\"longest\", longest.job.n, longest.collatz.steps)
\tfmt.Println(\"jobs\", total, \"failed\", failed)
}

< exit regions 3 removed 2 pages 7 returned 2 objects 30 goroutines 5 steps 16308
27 needs 111 steps, peak 9232
0 needs 0 steps, peak 0
97 needs 118 steps, peak 9232
871 needs 178 steps, peak 190996
6171 needs 261 steps, peak 975400
1 needs 0 steps, peak 1
703 needs 170 steps, peak 250504
longest 6171 261
jobs 8 failed 1

> porting/scheduler/after.go
package main

import \"fmt\"

var ready, running, blocked, finished int

// Task is a process with bursts of work, between which it sleeps.
type Task struct {
\tid       int
\tpriority int
\tbursts   []int
\tburst    int
\tsleep    int
\tstate    int
\twakes    int
\tran      int
}

// Queue is a heap of tasks, or a list of them in their order.
type Queue struct {
\ttasks []*Task
\tcount int
}

func swap(q *Queue, i, j int) {
\tt := q.tasks[i]
\tq.tasks[i] = q.tasks[j]
\tq.tasks[j] = t
}

// less orders tasks by priority, and those of one priority by number.
func less(q *Queue, i, j int) bool {
\ta := q.tasks[i]
\tb := q.tasks[j]
\tif a.priority != b.priority {
\t\treturn a.priority > b.priority
\t}
\treturn a.id < b.id
}

func push(q *Queue, t *Task) {
\ti := q.count
\tq.tasks[i] = t
\tq.count++
\tfor i > 0 && less(q, i, (i-1)/2) {
\t\tswap(q, i, (i-1)/2)
\t\ti = (i - 1) / 2
\t}
}

func pop(q *Queue) *Task {
\ttop := q.tasks[0]
\tq.count--
\tq.tasks[0] = q.tasks[q.count]
\ti := 0
\tfor 2*i+1 < q.count {
\t\tchild := 2*i + 1
\t\tif child+1 < q.count && less(q, child+1, child) {
\t\t\tchild++
\t\t}
\t\tif !less(q, child, i) {
\t\t\treturn top
\t\t}
\t\tswap(q, i, child)
\t\ti = child
\t}
\treturn top
}

type Event struct {
\ttime, task, state int
\tnext              *Event
}

type Scheduler struct {
\tclock       int
\tquantum     int
\tready       *Queue
\tblocked     *Queue
\tfirst, last *Event
\tcounts      []int
}

func newScheduler(quantum, most int) *Scheduler {
\tready := &Queue{make([]*Task, most), 0}
\tblocked := &Queue{make([]*Task, most), 0}
\treturn &Scheduler{0, quantum, ready, blocked, nil, nil, make([]int, 4)}
}

func note(s *Scheduler, t *Task, state int) {
\tt.state = state
\te := &Event{s.clock, t.id, state, nil}
\tif s.first == nil {
\t\ts.first = e
\t} else {
\t\ts.last.next = e
\t}
\ts.last = e
\ts.counts[state]++
}

func add(s *Scheduler, t *Task) {
\tpush(s.ready, t)
\tnote(s, t, ready)
}

func wake(s *Scheduler) {
\tkept := 0
\tfor i := 0; i < s.blocked.count; i++ {
\t\tt := s.blocked.tasks[i]
\t\tif t.wakes <= s.clock {
\t\t\tpush(s.ready, t)
\t\t\tnote(s, t, ready)
\t\t} else {
\t\t\ts.blocked.tasks[kept] = t
\t\t\tkept++
\t\t}
\t}
\ts.blocked.count = kept
}

// turn lets a task run for as long as it may.
func turn(s *Scheduler, t *Task) {
\tnote(s, t, running)
\tslice := s.quantum
\tif t.bursts[t.burst] < slice {
\t\tslice = t.bursts[t.burst]
\t}
\ts.clock += slice
\tt.ran += slice
\tt.bursts[t.burst] -= slice
\tif t.bursts[t.burst] > 0 {
\t\tpush(s.ready, t)
\t\tnote(s, t, ready)
\t} else if t.burst+1 < len(t.bursts) {
\t\tt.burst++
\t\tt.wakes = s.clock + t.sleep
\t\ts.blocked.tasks[s.blocked.count] = t
\t\ts.blocked.count++
\t\tnote(s, t, blocked)
\t} else {
\t\tnote(s, t, finished)
\t}
}

func run(s *Scheduler) int {
\tidle := 0
\tfor s.ready.count > 0 || s.blocked.count > 0 {
\t\twake(s)
\t\tif s.ready.count == 0 {
\t\t\ts.clock++
\t\t\tidle++
\t\t} else {
\t\t\tturn(s, pop(s.ready))
\t\t}
\t}
\treturn idle
}

func task(id, priority, bursts, sleep int) *Task {
\treturn &Task{id: id, priority: priority, bursts: make([]int, bursts), sleep: sleep}
}

func main() {
\trunning = 1
\tblocked = 2
\tfinished = 3
\ts := newScheduler(3, 8)
\ta := task(1, 1, 2, 4)
\ta.bursts[0] = 5
\ta.bursts[1] = 2
\tb := task(2, 3, 3, 3)
\tb.bursts[0] = 2
\tb.bursts[1] = 2
\tb.bursts[2] = 2
\tc := task(3, 2, 1, 0)
\tc.bursts[0] = 7
\tadd(s, a)
\tadd(s, b)
\tadd(s, c)
\tidle := run(s)
\tfor e := s.first; e != nil; e = e.next {
\t\tif e.state == finished {
\t\t\tfmt.Println(\"task\", e.task, \"finished at\", e.time)
\t\t}
\t}
\tfmt.Println(\"clock\", s.clock, \"idle\", idle)
\tfmt.Println(\"ready\", s.counts[ready], \"running\", s.counts[running], \"blocked\", s.counts[blocked], \"finished\", s.counts[finished])
}

< exit regions 1 removed 1 pages 1 returned 1 objects 36 goroutines 1 steps 2608
task 2 finished at 12
task 3 finished at 13
task 1 finished at 24
clock 24 idle 4
ready 9 running 9 blocked 3 finished 3
";
