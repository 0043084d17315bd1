//! The examples of the repository, in turns of several lengths: what they print, how they end, and what their goroutines have made
//! and done when none of them continues. The tables say what `tools/region_runs.py` finds, another machine with regions.
//!
//! ```text
//! > the name
//! the lines of the text
//! < how it ends, and what is made and done, unless that depends on whose turn it is
//! what is printed
//! ```

mod others;
mod plain;
mod regions;

use crate::driver::{Course, ROOMY, Room, drive};
use rgo_crew::over::{CrewEnd, Over};
use std::alloc::{AllocError, Global};
use std::process::Abort;
use std::test::Fail;
use std::thread::Threads;

/// Room for the goroutines of the largest crowd, too.
const ROOM: Room = Room {
    goroutines: 2000,
    ..ROOMY
};

/// A program, and what a run of it comes to.
#[derive(Clone, Copy)]
struct Row<'a> {
    name: &'a str,
    text: &'a str,
    outcome: &'a str,
    printed: &'a str,
}

fn row_of(row: &str) -> Option<Row<'_>> {
    let (name, rest) = row.split_once('\n')?;
    let (text, rest) = rest.split_once("\n< ")?;
    let (outcome, printed) = rest.split_once('\n')?;
    Some(Row {
        name,
        text,
        outcome,
        printed,
    })
}

/// How the tables name an ending.
fn name_of(ending: CrewEnd) -> &'static str {
    match ending {
        CrewEnd::Exit => "exit",
        CrewEnd::Trap(_) => "trap",
        CrewEnd::Deadlock => "deadlock",
        CrewEnd::Unfinished | CrewEnd::Limit(_) | CrewEnd::Short(_) | CrewEnd::NoMemory => {
            "no end of an example"
        }
    }
}

/// What a run has come to, as the tables say it.
fn outcome_of(alloc: Global, over: &Over) -> Result<String, AllocError> {
    let ending = name_of(over.ending);
    let tally = over.tally;
    let (made, removed) = (tally.made, tally.removed);
    let (taken, returned) = (tally.taken, tally.returned);
    let (objects, goroutines, steps) = (tally.objects, tally.goroutines, tally.steps);
    format!(in alloc;
        "{ending} regions {made} removed {removed} pages {taken} returned {returned} objects {objects} goroutines {goroutines} steps {steps}"
    )
}

/// A program prints its lines and ends as its row says, however long turns are.
fn holds<R: Threads + Abort + AllocGlobal + Sync>(rt: &R, row: &str) -> Result<(), Fail> {
    let Some(row) = row_of(row) else {
        return Err(Fail::from("a row without form"));
    };
    for slice in [1, 7, 1000] {
        let over = drive(rt, row.text, ROOM, Course::Rounds(slice))?;
        assert_eq!(rt;
            over.printed(rt.alloc())?.as_slice(),
            row.printed.as_bytes(),
            "{} in turns of {slice}",
            row.name
        );
        let outcome = outcome_of(rt.alloc(), &over)?;
        let found = if row.outcome.contains(' ') {
            outcome.as_str()
        } else {
            name_of(over.ending)
        };
        assert_eq!(rt; found, row.outcome, "{} in turns of {slice}", row.name);
    }
    Ok(())
}

/// The same for each program of a table, which must not be empty.
fn all_hold<R: Threads + Abort + AllocGlobal + Sync>(rt: &R, table: &str) -> Result<(), Fail> {
    let Some(rows) = table.strip_prefix("\n> ") else {
        return Err(Fail::from("a table without rows"));
    };
    for row in rows.split("\n> ") {
        holds(rt, row)?;
    }
    Ok(())
}

#[test]
fn examples_print_and_count(rt: HostRuntime) -> Result<(), Fail> {
    all_hold(&rt, plain::PLAIN)?;
    all_hold(&rt, regions::REGIONS)?;
    all_hold(&rt, others::OTHERS)
}
