//! Programs, from `tools/code_texts`, as `tools/code_vectors.py --table` writes them.

pub(crate) const ALL: &str = "\
package main

import \"fmt\"

type N struct {
\tv int
\tp *N
}

var last *N
var count int

func pick(a, b *N) *N {
\tif a == b {
\t\treturn a
\t}
\treturn a.p
}

func supply(c chan *N, a *N) {
\tc <- a
\tclose(c)
}

func all(a, b *N, n int) *N {
\tok := true
\tif !ok || a == nil {
\t\treturn nil
\t}
\ts := make([]*N, n)
\ts[0] = a
\tx := s[0]
\tc := make(chan *N, len(s))
\tc <- b
\ty := <-c
\tgo supply(c, y)
\tlast = new(N)
\tcount = -n
\tfmt.Println(\"all\", last.v, count)
\tz := pick(x, y)
\tfor z != nil {
\t\tz = z.p
\t}
\td := make(chan *N)
\tclose(d)
\treturn &N{n, nil}
}

func main() {
\tr := all(&N{1, nil}, &N{2, nil}, 3)
\tfmt.Println(r.v)
}
";

pub(crate) const CALLS: &str = "\
package main

import \"fmt\"

type N struct {
\tv int
\tp *N
}

func sum(a, b *N) int {
\ts := a.v
\treturn s + b.v
}

func next(a *N) *N {
\treturn &N{a.v + 1, nil}
}

func twice(a *N) *N {
\tfmt.Println(sum(a, a))
\treturn a
}

func main() {
\tx := &N{21, nil}
\ty := next(twice(x))
\tx = next(y)
\tfmt.Println(sum(x, y), y.v)
}
";

pub(crate) const CHILD: &str = "\
package main
import \"fmt\"
type N struct { v int; p *N }
func list(n int) *N { var l *N; for i := 0; i < n; i++ { l = &N{i, l} }; return l }
func sum(l *N) int { s := 0; for l != nil { s += l.v; l = l.p }; return s }
func child(l *N, d chan int) { fmt.Println(sum(l)); d <- 1 }
func main() { d := make(chan int); l := list(4); go child(l, d); <-d }
";

pub(crate) const FIELD: &str = "\
package main
import \"fmt\"
type N struct { v int; p *N }
func main() {
\tx := new(N)
\tfmt.Println(x.v)
}
";

pub(crate) const GLOBALS: &str = "\
package main

import \"fmt\"

type N struct {
\tv int
\tp *N
}

var head *N
var count int

func push(n *N) {
\tn.p = head
\thead = n
\tcount++
}

func main() {
\tpush(&N{1, nil})
\tx := &N{2, nil}
\tpush(&N{x.v, nil})
\tfmt.Println(head.v, count)
}
";

pub(crate) const GOROUTINES: &str = "\
package main

import \"fmt\"

type N struct {
\tv int
\tp *N
}

func add(a, b *N, d chan int) {
\ts := a.v
\td <- s + b.v
\tclose(d)
}

func main() {
\tx := &N{21, nil}
\td := make(chan int)
\tgo add(x, x, d)
\tfmt.Println(<-d, <-d)
}
";

pub(crate) const LISTS: &str = "\
package main
import \"fmt\"
type N struct { v int; p *N }
func list(n int) *N { var l *N; for i := 0; i < n; i++ { l = &N{i, l} }; return l }
func sum(l *N) int { s := 0; for l != nil { s += l.v; l = l.p }; return s }
func main() { s := 0; for i := 0; i < 1000; i++ { s += sum(list(10)) }; fmt.Println(s) }
";

pub(crate) const LOOP: &str = "\
package main

import \"fmt\"

type N struct {
\tv int
\tp *N
}

func main() {
\tvar l *N
\tfor i := 0; i < 3; i++ {
\t\tl = &N{i, l}
\t}
\tfor l != nil {
\t\tfmt.Println(l.v)
\t\tl = l.p
\t}
}
";

pub(crate) const RENEWED: &str = "\
package main
import \"fmt\"
type N struct { v int; p *N }
func f(a *N) *N { return &N{a.v + 1, nil} }
func main() { x := &N{1, nil}; x = f(x); fmt.Println(x.v) }
";

pub(crate) const SHARED: &str = "\
package main
import \"fmt\"
type N struct { v int; p *N }
func f(a, b *N) int { s := a.v; return s + b.v }
func main() { x := &N{21, nil}; fmt.Println(f(x, x)) }
";

pub(crate) const STARTED: &str = "\
package main
import \"fmt\"
type N struct { v int; p *N }
func f(a, b *N, d chan int) { s := a.v; d <- s + b.v }
func main() { x := &N{21, nil}; d := make(chan int); go f(x, x, d); fmt.Println(<-d) }
";
