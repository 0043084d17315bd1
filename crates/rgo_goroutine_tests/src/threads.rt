//! Goroutines of one table, each in a thread of its own.

use crate::driver::{Course, ROOMY, Room, Tally, drive, made_by};
use rgo_crew::over::CrewEnd;
use std::alloc::{AllocError, Global};
use std::process::Abort;
use std::test::Fail;
use std::thread::Threads;

/// A goroutine sends numbers from 0 on, up to how many there are.
const BEFORE: &str = "\
package main

import \"fmt\"

func send(c chan int, n int) {
    for i := 0; i < n; i++ {
        c <- i
    }
    close(c)
}

func main() {
    n := ";

/// `main` makes the channel, receives them, looks at their order, and adds them up.
const AFTER: &str = "
    go send(c, n)
    sum := 0
    for i := 0; i < n; i++ {
        x := <-c
        if x != i {
            fmt.Println(\"received\", x, \"after\", i)
        }
        sum += x
    }
    fmt.Println(sum, <-c)
}
";

/// Each of eight goroutines makes a list of two pages, adds it up, and makes the next one.
const LISTS: &str = "\
package main

import \"fmt\"

type Node struct {
    value int
    next  *Node
}

func list(n int) *Node {
    var all *Node
    for i := 0; i < n; i++ {
        all = &Node{i, all}
    }
    return all
}

func sum(l *Node) int {
    s := 0
    for l != nil {
        s += l.value
        l = l.next
    }
    return s
}

func work(n int, sums chan int) {
    s := 0
    for i := 0; i < n; i++ {
        s += sum(list(9))
    }
    sums <- s
}

func main() {
    sums := make(chan int)
    for i := 0; i < 8; i++ {
        go work(20, sums)
    }
    s := 0
    for i := 0; i < 8; i++ {
        s += <-sums
    }
    fmt.Println(s)
}
";

/// Room for the lists of four goroutines, but only one second page: the others wait until regions and pages come back.
const NARROW: Room = Room {
    page_words: 16,
    pages: 6,
    regions: 5,
    goroutines: 9,
};

/// The program with this many numbers and this channel.
fn sender(alloc: Global, count: &str, channel: &str) -> Result<String, AllocError> {
    let mut text = String::new(alloc);
    text.push_str(BEFORE)?;
    text.push_str(count)?;
    text.push_str("\n    c := ")?;
    text.push_str(channel)?;
    text.push_str(AFTER)?;
    Ok(text)
}

/// Runs the program with a thread for each goroutine, and compares its print, its end and its counts.
fn ends<R: Threads + Abort + AllocGlobal + Sync>(
    rt: &R,
    text: &str,
    room: Room,
    printed: &str,
    tally: Tally,
) -> Result<(), Fail> {
    let course = Course::Threads {
        goroutines: tally.goroutines as usize,
        slice: 1000,
    };
    let over = drive(rt, text, room, course)?;
    assert_eq!(rt; over.printed(rt.alloc())?.as_slice(), printed.as_bytes());
    assert_eq!(rt; over.enders.as_slice(), [(0, CrewEnd::Exit)].as_slice());
    assert_eq!(rt; made_by(&over), tally);
    assert_eq!(rt; (over.pages, over.slots), (0, 0));
    Ok(())
}

#[test]
fn values_arrive_in_order(rt: HostRuntime) -> Result<(), Fail> {
    for (count, channel, printed) in [
        ("1000", "make(chan int)", "499500 0\n"),
        ("1000000", "make(chan int, 64)", "499999500000 0\n"),
    ] {
        let text = sender(rt.alloc(), count, channel)?;
        let tally = Tally {
            made: 1,
            removed: 1,
            taken: 1,
            returned: 1,
            objects: 1,
            goroutines: 2,
        };
        ends(&rt, text.as_str(), ROOMY, printed, tally)?;
    }
    Ok(())
}

#[test]
fn eight_goroutines_share_few_pages(rt: HostRuntime) -> Result<(), Fail> {
    let tally = Tally {
        made: 161,
        removed: 161,
        taken: 321,
        returned: 321,
        objects: 1_441,
        goroutines: 9,
    };
    ends(&rt, LISTS, NARROW, "5760\n", tally)
}
