//! How runs end.

use crate::driver::{Course, ROOMY, Room, drive};
use rgo_crew::over::CrewEnd;
use rgo_machine::Shortage;
use rgo_memory::Trap;
use rgo_region_machine::Limit;
use std::process::Abort;
use std::test::Fail;
use std::thread::Threads;

/// A field of nil, after a print.
const NIL: &str = "\
package main

import \"fmt\"

type Node struct {
    value int
}

func main() {
    var node *Node
    fmt.Println(1)
    fmt.Println(node.value)
}
";

/// An index that is the length.
const INDEX: &str = "\
package main

import \"fmt\"

func main() {
    s := make([]int, 3)
    fmt.Println(len(s))
    s[len(s)] = 1
}
";

/// A division by 0.
const DIVISION: &str = "\
package main

import \"fmt\"

func main() {
    x := 7
    y := 0
    fmt.Println(x / y)
}
";

/// A slice of a negative length.
const SIZE: &str = "\
package main

import \"fmt\"

func main() {
    n := 0
    n--
    s := make([]int, n)
    fmt.Println(len(s))
}
";

/// A send to a closed channel.
const SEND: &str = "\
package main

import \"fmt\"

func main() {
    c := make(chan int, 1)
    close(c)
    c <- 1
    fmt.Println(1)
}
";

/// A close of a closed channel.
const CLOSE: &str = "\
package main

import \"fmt\"

func main() {
    c := make(chan int)
    close(c)
    fmt.Println(1)
    close(c)
}
";

/// A close of nil.
const CLOSE_NIL: &str = "\
package main

import \"fmt\"

func main() {
    var c chan int
    fmt.Println(1)
    close(c)
}
";

/// Nobody sends.
const DEADLOCK: &str = "\
package main

import \"fmt\"

func main() {
    c := make(chan int)
    fmt.Println(1)
    fmt.Println(<-c)
}
";

/// A receive from nil.
const NIL_CHANNEL: &str = "\
package main

import \"fmt\"

func main() {
    var c chan int
    fmt.Println(<-c)
}
";

/// A call without an end.
const DEEP: &str = "\
package main

import \"fmt\"

func deeper(n int) int { return deeper(n+1) + 1 }

func main() {
    fmt.Println(deeper(0))
}
";

/// Goroutines that wait, one after another.
const MANY: &str = "\
package main

import \"fmt\"

func wait(c chan int) {
    fmt.Println(<-c)
}

func main() {
    c := make(chan int)
    for {
        go wait(c)
    }
}
";

/// A list without an end.
const LONG: &str = "\
package main

import \"fmt\"

type Node struct {
    next *Node
}

func main() {
    var all *Node
    for all == nil || all.next != all {
        all = &Node{all}
    }
    fmt.Println(1)
}
";

/// A region for each frame, and no end.
const NESTED: &str = "\
package main

import \"fmt\"

type Box struct {
    value int
}

func inside(n int) int {
    box := &Box{n}
    return inside(n+1) + box.value
}

func main() {
    fmt.Println(inside(0))
}
";

/// A slice of more data pages than an object can have.
const LARGE: &str = "\
package main

import \"fmt\"

func main() {
    s := make([]int, 16385)
    fmt.Println(len(s))
}
";

/// Little room.
const TIGHT: Room = Room {
    page_words: 16,
    pages: 2,
    regions: 2,
    goroutines: 3,
};

/// A program, how it ends, and what it has printed before.
struct Row {
    text: &'static str,
    room: Room,
    ending: CrewEnd,
    printed: &'static str,
}

static ROWS: [Row; 13] = [
    Row {
        text: NIL,
        room: ROOMY,
        ending: CrewEnd::Trap(Trap::NilPointer),
        printed: "1\n",
    },
    Row {
        text: INDEX,
        room: ROOMY,
        ending: CrewEnd::Trap(Trap::IndexRange),
        printed: "3\n",
    },
    Row {
        text: DIVISION,
        room: ROOMY,
        ending: CrewEnd::Trap(Trap::DivideZero),
        printed: "",
    },
    Row {
        text: SIZE,
        room: ROOMY,
        ending: CrewEnd::Trap(Trap::BadSize),
        printed: "",
    },
    Row {
        text: SEND,
        room: ROOMY,
        ending: CrewEnd::Trap(Trap::SendClosed),
        printed: "",
    },
    Row {
        text: CLOSE,
        room: ROOMY,
        ending: CrewEnd::Trap(Trap::CloseClosed),
        printed: "1\n",
    },
    Row {
        text: CLOSE_NIL,
        room: ROOMY,
        ending: CrewEnd::Trap(Trap::CloseNil),
        printed: "1\n",
    },
    Row {
        text: DEADLOCK,
        room: ROOMY,
        ending: CrewEnd::Deadlock,
        printed: "1\n",
    },
    Row {
        text: NIL_CHANNEL,
        room: ROOMY,
        ending: CrewEnd::Deadlock,
        printed: "",
    },
    Row {
        text: MANY,
        room: TIGHT,
        ending: CrewEnd::Limit(Limit::Goroutines),
        printed: "",
    },
    Row {
        text: LARGE,
        room: ROOMY,
        ending: CrewEnd::Limit(Limit::ObjectSize),
        printed: "",
    },
    Row {
        text: LONG,
        room: TIGHT,
        ending: CrewEnd::Short(Shortage::Pages),
        printed: "",
    },
    Row {
        text: NESTED,
        room: TIGHT,
        ending: CrewEnd::Short(Shortage::Regions),
        printed: "",
    },
];

/// A program has this end and this print, however long turns are.
fn ends<R: Threads + Abort + AllocGlobal + Sync>(
    rt: &R,
    number: usize,
    row: &Row,
) -> Result<(), Fail> {
    for slice in [1, 3, 1000] {
        let over = drive(rt, row.text, row.room, Course::Rounds(slice))?;
        assert_eq!(rt; over.ending, row.ending, "row {number} in turns of {slice}");
        assert_eq!(rt;
            over.printed(rt.alloc())?.as_slice(),
            row.printed.as_bytes(),
            "row {number} in turns of {slice}"
        );
    }
    Ok(())
}

#[test]
fn runs_end(rt: HostRuntime) -> Result<(), Fail> {
    for (number, row) in ROWS.iter().enumerate() {
        ends(&rt, number, row)?;
    }
    Ok(())
}

#[test]
fn calls_are_not_too_deep(rt: HostRuntime) -> Result<(), Fail> {
    let over = drive(&rt, DEEP, ROOMY, Course::Rounds(1000))?;
    assert_eq!(&rt; over.ending, CrewEnd::Limit(Limit::Calls));
    Ok(())
}
