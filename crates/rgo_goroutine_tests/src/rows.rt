//! Turns one after another, and why each is over. Goroutines are in the order in which they start, `main` at place 0.

use crate::driver::{Course, ROOMY, Room, Tally, drive, made_by};
use rgo_crew::over::{CrewEnd, Over, Why};
use rgo_machine::Shortage;
use rgo_memory::Trap;
use std::process::Abort;
use std::test::Fail;
use std::thread::Threads;

/// Two pages have room for two slices of 15 elements.
const PAGES: &str = "\
package main

import \"fmt\"

var h []int

func main() {
    fmt.Println(1)
    h = make([]int, 15)
    h[1] = 5
    fmt.Println(h[0], h[1])
    h = make([]int, 15)
    h = make([]int, 15)
}
";

/// The region of a list is removed before that of `x` is created.
const SLOTS: &str = "\
package main

import \"fmt\"

type Node struct {
    value int
    next  *Node
}

func main() {
    var l *Node
    for i := 0; i < 24; i++ {
        l = &Node{i, l}
    }
    fmt.Println(l.value)
    x := &Node{1, nil}
    y := &Node{2, nil}
    fmt.Println(x.value + y.value)
}
";

/// A send whose offer is at a channel that is closed, and a close of that channel.
const CLOSES: &str = "\
package main

import \"fmt\"

func send(c chan int) {
    c <- 5
    c <- 6
}

func main() {
    c := make(chan int)
    go send(c)
    fmt.Println(<-c)
    close(c)
    fmt.Println(<-c)
    close(c)
}
";

/// `main` starts one goroutine, and both wait for each other.
const ECHO: &str = "\
package main

import \"fmt\"

func echo(a, b chan int) {
    for i := 0; i < 5; i++ {
        b <- <-a + 1
    }
}

func main() {
    a := make(chan int)
    b := make(chan int)
    go echo(a, b)
    for i := 0; i < 5; i++ {
        a <- i * 10
        fmt.Println(<-b)
    }
}
";

/// `count` makes a list of two pages after it has sent on `ready`, and `main` removes its own list after it has received.
const LISTS: &str = "\
package main

import \"fmt\"

type Node struct {
    value int
    next  *Node
}

func list(n int) *Node {
    var all *Node
    for i := 0; i < n; i++ {
        all = &Node{i, all}
    }
    return all
}

func count(ready, done chan int) {
    ready <- 1
    s := 0
    for l := list(9); l != nil; l = l.next {
        s += l.value
    }
    done <- s
}

func main() {
    ready := make(chan int, 1)
    done := make(chan int, 1)
    l := list(1)
    go count(ready, done)
    fmt.Println(<-ready)
    fmt.Println(l.value)
    fmt.Println(<-done)
}
";

/// A goroutine makes a slice of four pages while `main` has one of three.
const SLICES: &str = "\
package main

import \"fmt\"

func count(ready, done chan int) {
    ready <- 1
    s := make([]int, 40)
    s[39] = 7
    done <- s[39] + len(s)
}

func main() {
    ready := make(chan int, 1)
    done := make(chan int, 1)
    s := make([]int, 20)
    s[19] = 3
    go count(ready, done)
    fmt.Println(<-ready)
    fmt.Println(s[19])
    fmt.Println(<-done)
}
";

/// Seven thousand lines of ten bytes.
const LINES: &str = "\
package main

import \"fmt\"

func main() {
    for i := 0; i < 7000; i++ {
        fmt.Println(\"123456789\")
    }
}
";

/// Pages of 16 words.
const fn small(pages: usize, regions: usize) -> Room {
    Room {
        page_words: 16,
        pages,
        regions,
        goroutines: 10,
    }
}

/// The turns are over for these reasons, and this was printed.
fn go<R: Threads + Abort + AllocGlobal + Sync>(
    rt: &R,
    text: &str,
    room: Room,
    turns: &[(usize, u32)],
    whys: &[Why],
    printed: &str,
) -> Result<Over, Fail> {
    let over = drive(rt, text, room, Course::Turns(turns))?;
    assert_eq!(rt; over.whys.as_slice(), whys);
    assert_eq!(rt; over.printed(rt.alloc())?.as_slice(), printed.as_bytes());
    Ok(over)
}

/// What is lacked in a turn is lacked in the next one, too, while nobody frees it.
#[test]
fn pages_and_slots_are_spent(rt: HostRuntime) -> Result<(), Fail> {
    let pages = Why::Over(CrewEnd::Short(Shortage::Pages));
    let over = go(
        &rt,
        PAGES,
        small(2, 1),
        &[(0, 1000), (0, 1000)],
        &[pages, pages],
        "1\n0 5\n",
    )?;
    assert_eq!(&rt; (made_by(&over).taken, made_by(&over).objects), (2, 2));
    let slots = Why::Over(CrewEnd::Short(Shortage::Regions));
    let over = go(
        &rt,
        SLOTS,
        small(3, 1),
        &[(0, 1000), (0, 1000)],
        &[slots, slots],
        "23\n",
    )?;
    let tally = Tally {
        made: 2,
        removed: 1,
        taken: 4,
        returned: 3,
        objects: 25,
        goroutines: 1,
    };
    assert_eq!(&rt; made_by(&over), tally);
    Ok(())
}

/// Once another goroutine has freed a page or a slot, the goroutine that lacked it continues.
#[test]
fn pages_and_slots_come_back(rt: HostRuntime) -> Result<(), Fail> {
    for (room, shortage) in [
        (small(4, 4), Shortage::Pages),
        (small(5, 3), Shortage::Regions),
    ] {
        let over = go(
            &rt,
            LISTS,
            room,
            &[
                (0, 1000),
                (1, 1000),
                (1, 1000),
                (0, 1000),
                (1, 1000),
                (0, 1000),
            ],
            &[
                Why::Blocked,
                Why::Over(CrewEnd::Short(shortage)),
                Why::Over(CrewEnd::Short(shortage)),
                Why::Blocked,
                Why::Ended,
                Why::Over(CrewEnd::Exit),
            ],
            "1\n0\n36\n",
        )?;
        let tally = Tally {
            made: 4,
            removed: 4,
            taken: 5,
            returned: 5,
            objects: 12,
            goroutines: 2,
        };
        assert_eq!(&rt; made_by(&over), tally, "{shortage:?}");
    }
    Ok(())
}

/// A goroutine keeps the page that it has for a slice, and continues once others are free.
#[test]
fn the_pages_of_a_slice_are_taken_one_by_one(rt: HostRuntime) -> Result<(), Fail> {
    let short = Why::Over(CrewEnd::Short(Shortage::Pages));
    let over = go(
        &rt,
        SLICES,
        small(6, 4),
        &[
            (0, 1000),
            (1, 1000),
            (1, 1000),
            (0, 1000),
            (1, 1000),
            (0, 1000),
        ],
        &[
            Why::Blocked,
            short,
            short,
            Why::Blocked,
            Why::Ended,
            Why::Over(CrewEnd::Exit),
        ],
        "1\n3\n47\n",
    )?;
    let tally = Tally {
        made: 4,
        removed: 4,
        taken: 9,
        returned: 9,
        objects: 4,
        goroutines: 2,
    };
    assert_eq!(&rt; made_by(&over), tally);
    Ok(())
}

/// A turn is over after the print with which it has printed 65,536 bytes: that is the 6,554th line of ten bytes.
#[test]
fn a_turn_that_prints_much_is_over(rt: HostRuntime) -> Result<(), Fail> {
    let over = drive(
        &rt,
        LINES,
        ROOMY,
        Course::Turns(&[(0, 1_000_000), (0, 1_000_000)]),
    )?;
    let whys = [Why::Went, Why::Over(CrewEnd::Exit)];
    assert_eq!(&rt; over.whys.as_slice(), whys.as_slice());
    assert_eq!(&rt; over.printed(rt.alloc())?.len(), 70_000);
    Ok(())
}

/// The first end mark counts: what the other goroutine prints after it is void, and its trap comes too late.
#[test]
fn the_first_end_stands(rt: HostRuntime) -> Result<(), Fail> {
    let over = go(
        &rt,
        CLOSES,
        ROOMY,
        &[
            (0, 1000),
            (1, 1000),
            (0, 1),
            (1, 1000),
            (0, 2),
            (1, 1000),
            (0, 1000),
            (0, 1000),
        ],
        &[
            Why::Blocked,
            Why::Blocked,
            Why::Went,
            Why::Blocked,
            Why::Went,
            Why::Over(CrewEnd::Trap(Trap::SendClosed)),
            Why::Went,
            Why::Went,
        ],
        "5\n",
    )?;
    assert_eq!(&rt;
        over.enders.as_slice(),
        [(1, CrewEnd::Trap(Trap::SendClosed))].as_slice()
    );
    Ok(())
}

#[test]
fn a_goroutine_is_adopted_once(rt: HostRuntime) -> Result<(), Fail> {
    let over = go(
        &rt,
        ECHO,
        ROOMY,
        &[(0, 1000), (0, 1000)],
        &[Why::Blocked, Why::Blocked],
        "",
    )?;
    assert_eq!(&rt; over.started.as_slice(), [1, 0].as_slice());
    Ok(())
}
