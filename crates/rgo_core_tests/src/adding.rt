//! The table of the smallest example of the rule, accessed from one thread and from two.
ghost use Rattle.std.specs.Prelude.{◌≡◌};
ghost use Rattle.rgo_core_rule.specs.Counting.{new_adder};
ghost use Rattle.rgo_core_rule.specs.Views.{IsAlone};

use rgo_core_rule::counting::{AdderSeat, Plan, Total, add, close, open, start};
use rgo_core_rule::seats::{glance, meet, part, retire};
use std::process::Abort;
use std::test::Fail;
use std::thread::{Threads, join};

// Adds three times.
fn add_three(table: &Total, mut seat: AdderSeat) -> AdderSeat
    requires own { (seat.table_id ≡ table.now.shared.table_id) × (table.now.shared.table_id.words ≡ 2) }
    requires alone { IsAlone new_adder seat.me }
    ensures own { result.table_id ≡ seat.table_id }
    ensures alone { IsAlone new_adder result.me }
{
    add(table, &mut seat);
    add(table, &mut seat);
    add(table, &mut seat);
    seat
}

#[test]
fn a_goroutine_adds(rt: HostRuntime) -> Result<(), Fail> {
    let (table, seat) = open(rt.alloc(), &Plan { limit: 1 })?;
    let mut seat = add_three(&table, seat);
    assert_eq!(&rt; add(&table, &mut seat), 3);
    assert_eq!(&rt; glance(&table, &mut seat), 4);
    let closed = close(table, seat);
    let words = (closed.word(0), closed.word(1));
    closed.free();
    assert_eq!(&rt; words, (4, 1));
    Ok(())
}

#[test]
fn two_goroutines_add_from_two_threads(rt: HostRuntime) -> Result<(), Fail> {
    let (table, mut seat) = open(rt.alloc(), &Plan { limit: 2 })?;
    let Some(number) = start(&table, &mut seat, 2) else {
        panic!(&rt; "no goroutine has started")
    };
    let other = part(&table, &mut seat, number);
    let all = &table;
    let (mut seat, mut other) = join(
        &rt,
        || -> AdderSeat
            requires own { (seat.table_id ≡ all.now.shared.table_id) × (all.now.shared.table_id.words ≡ 2) }
            requires alone { IsAlone new_adder seat.me }
            ensures own { result.table_id ≡ all.entry.now.shared.table_id }
            ensures alone { IsAlone new_adder result.me }
        { add_three(all, seat) },
        || -> AdderSeat
            requires own { (other.table_id ≡ all.now.shared.table_id) × (all.now.shared.table_id.words ≡ 2) }
            requires alone { IsAlone new_adder other.me }
            ensures own { result.table_id ≡ all.entry.now.shared.table_id }
            ensures alone { IsAlone new_adder result.me }
        { add_three(all, other) },
    );
    meet(&table, &mut seat, &mut other);
    assert_eq!(&rt; add(&table, &mut other), 6);
    retire(&table, &mut seat, other);
    let closed = close(table, seat);
    let words = (closed.word(0), closed.word(1));
    closed.free();
    assert_eq!(&rt; words, (7, 2));
    Ok(())
}
