//! Programs, what they print, and what they have made and done. Both were worked out by hand.

use crate::driver::{Course, ROOMY, Tally, drive, made_by};
use rgo_crew::over::CrewEnd;
use std::process::Abort;
use std::test::Fail;
use std::thread::Threads;

/// Recursive calls that touch no region.
const FIBONACCI: &str = "\
package main

import \"fmt\"

func fibonacci(n int) int {
    if n < 2 {
        return n
    }
    return fibonacci(n-1) + fibonacci(n-2)
}

func main() {
    fmt.Println(fibonacci(15))
}
";

/// A package variable, slices of ints and bools, the length of nil, and a text.
const SLICES: &str = "\
package main

import \"fmt\"

var last []int

func squares(n int) []int {
    s := make([]int, n)
    for i := 0; i < len(s); i++ {
        s[i] = i * i
    }
    return s
}

func main() {
    fmt.Println(len(last))
    last = squares(5)
    t := make([]bool, 2)
    t[1] = last[2] == 4
    fmt.Println(last[4], t[0], t[1], len(last))
    fmt.Println(\"text\", -7)
}
";

/// Each pair has a region, which its last user removes.
const PAIRS: &str = "\
package main

import \"fmt\"

type Pair struct {
    left  int
    right int
}

func pair(a, b int) *Pair { return &Pair{a, b} }

func swapped(p *Pair) *Pair { return pair(p.right, p.left) }

func sum(p *Pair) int { return p.left + p.right }

func main() {
    total := 0
    for i := 0; i < 10; i++ {
        q := swapped(pair(i, i+1))
        total = total + sum(q) - q.left + 2*q.right
    }
    fmt.Println(total)
}
";

/// A region that calls are given twice, and one that they return into.
const PROTECTED: &str = "\
package main

import \"fmt\"

type Node struct {
    value int
    next  *Node
}

func next(a *Node) *Node { return &Node{a.value + 1, nil} }

func sum(a, b *Node) int {
    s := a.value
    return s + b.value
}

func main() {
    x := &Node{20, nil}
    x = next(x)
    fmt.Println(sum(x, x))
}
";

/// Receives from a closed channel, before and after its buffer is empty.
const CLOSED: &str = "\
package main

import \"fmt\"

func main() {
    c := make(chan int, 2)
    c <- 7
    close(c)
    fmt.Println(<-c, <-c)
}
";

/// A channel with a buffer that is closed, and four goroutines.
const WORKERS: &str = "\
package main

import \"fmt\"

func work(numbers, sums chan int) {
    sum := 0
    for n := <-numbers; n != 0; n = <-numbers {
        sum += n
    }
    sums <- sum
}

func main() {
    numbers := make(chan int, 4)
    sums := make(chan int)
    for i := 0; i < 3; i++ {
        go work(numbers, sums)
    }
    for n := 1; n <= 100; n++ {
        numbers <- n
    }
    close(numbers)
    fmt.Println(<-sums + <-sums + <-sums)
}
";

/// Two channels without a buffer, there and back.
const ECHO: &str = "\
package main

import \"fmt\"

func echo(a, b chan int) {
    for i := 0; i < 5; i++ {
        b <- <-a + 1
    }
}

func main() {
    a := make(chan int)
    b := make(chan int)
    go echo(a, b)
    for i := 0; i < 5; i++ {
        a <- i * 10
        fmt.Println(<-b)
    }
}
";

/// A channel without a buffer, and objects in its region.
const MESSAGES: &str = "\
package main

import \"fmt\"

type Message struct {
    key   int
    value int
}

func produce(c chan *Message, n int) {
    for i := 0; i < n; i++ {
        c <- &Message{i, i * i}
    }
}

func main() {
    c := make(chan *Message)
    go produce(c, 100)
    s := 0
    for i := 0; i < 100; i++ {
        m := <-c
        s += m.value - m.key
    }
    fmt.Println(s)
}
";

/// A region that `main` leaves to the goroutine that it was given to.
const GIVEN: &str = "\
package main

import \"fmt\"

type Node struct {
    value int
    next  *Node
}

func list(n int) *Node {
    var all *Node
    for i := 0; i < n; i++ {
        all = &Node{i, all}
    }
    return all
}

func sum(l *Node, done chan int) {
    s := 0
    for l != nil {
        s += l.value
        l = l.next
    }
    fmt.Println(s)
    done <- 1
}

func main() {
    done := make(chan int)
    l := list(4)
    go sum(l, done)
    <-done
}
";

/// A region that a goroutine is given twice, and that it has protected until its function has returned.
const TWICE: &str = "\
package main

import \"fmt\"

type Node struct {
    value int
    next  *Node
}

func sum(a, b *Node, done chan int) {
    s := a.value
    done <- s + b.value
}

func main() {
    x := &Node{21, nil}
    done := make(chan int)
    go sum(x, x, done)
    fmt.Println(<-done)
}
";

/// A program, which calls at the table it adds to those of the rows above it, what it prints, and its tally.
struct Row {
    calls: &'static str,
    text: &'static str,
    printed: &'static str,
    tally: Tally,
}

static ROWS: [Row; 10] = [
    Row {
        calls: "none",
        text: FIBONACCI,
        printed: "610\n",
        tally: Tally {
            made: 0,
            removed: 0,
            taken: 0,
            returned: 0,
            objects: 0,
            goroutines: 1,
        },
    },
    Row {
        calls: "claim_from for Global",
        text: SLICES,
        printed: "0\n16 false true 5\ntext -7\n",
        tally: Tally {
            made: 1,
            removed: 1,
            taken: 2,
            returned: 1,
            objects: 2,
            goroutines: 1,
        },
    },
    Row {
        calls: "create_from, claim_from, leave, release, free_slot",
        text: PAIRS,
        printed: "135\n",
        tally: Tally {
            made: 20,
            removed: 20,
            taken: 20,
            returned: 20,
            objects: 20,
            goroutines: 1,
        },
    },
    Row {
        calls: "leave once for two names",
        text: PROTECTED,
        printed: "42\n",
        tally: Tally {
            made: 1,
            removed: 1,
            taken: 1,
            returned: 1,
            objects: 2,
            goroutines: 1,
        },
    },
    Row {
        calls: "send, receive and close_channel with a buffer",
        text: CLOSED,
        printed: "7 0\n",
        tally: Tally {
            made: 1,
            removed: 1,
            taken: 1,
            returned: 1,
            objects: 1,
            goroutines: 1,
        },
    },
    Row {
        calls: "the same by four goroutines",
        text: WORKERS,
        printed: "5050\n",
        tally: Tally {
            made: 2,
            removed: 2,
            taken: 2,
            returned: 2,
            objects: 2,
            goroutines: 4,
        },
    },
    Row {
        calls: "share, send, receive and acknowledge without a buffer",
        text: ECHO,
        printed: "1\n11\n21\n31\n41\n",
        tally: Tally {
            made: 2,
            removed: 2,
            taken: 2,
            returned: 2,
            objects: 2,
            goroutines: 2,
        },
    },
    Row {
        calls: "claim_from twice for one region",
        text: MESSAGES,
        printed: "323400\n",
        tally: Tally {
            made: 1,
            removed: 1,
            taken: 2,
            returned: 2,
            objects: 101,
            goroutines: 2,
        },
    },
    Row {
        calls: "leave of the first, and of the last",
        text: GIVEN,
        printed: "6\n",
        tally: Tally {
            made: 2,
            removed: 2,
            taken: 2,
            returned: 2,
            objects: 5,
            goroutines: 2,
        },
    },
    Row {
        calls: "share once, leave at the end",
        text: TWICE,
        printed: "42\n",
        tally: Tally {
            made: 2,
            removed: 2,
            taken: 2,
            returned: 2,
            objects: 2,
            goroutines: 2,
        },
    },
];

/// A program prints its lines, and `main` returns, however long turns are.
fn holds<R: Threads + Abort + AllocGlobal + Sync>(rt: &R, row: &Row) -> Result<(), Fail> {
    for slice in [1, 2, 3, 7, 50, 1000] {
        let over = drive(rt, row.text, ROOMY, Course::Rounds(slice))?;
        assert_eq!(rt;
            over.ending,
            CrewEnd::Exit,
            "{} in turns of {slice}",
            row.calls
        );
        assert_eq!(rt;
            over.printed(rt.alloc())?.as_slice(),
            row.printed.as_bytes(),
            "{} in turns of {slice}",
            row.calls
        );
        assert_eq!(rt;
            made_by(&over),
            row.tally,
            "{} in turns of {slice}",
            row.calls
        );
    }
    Ok(())
}

#[test]
fn programs_print_and_count(rt: HostRuntime) -> Result<(), Fail> {
    for row in &ROWS {
        holds(&rt, row)?;
    }
    Ok(())
}
