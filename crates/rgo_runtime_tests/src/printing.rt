//! Prints that wait until all earlier ones were written.

use rgo_outside::MemSink;
use rgo_runtime::goroutine::acts::prints::Print;
use rgo_runtime::printing::PrintQueue;
use std::alloc::Global;
use std::test::Fail;

fn add(alloc: Global, queue: &mut PrintQueue, ticket: u64, text: &str) -> Result<(), Fail> {
    let bytes = Vec::from_slice(alloc, text.as_bytes())?;
    let mut prints = Vec::new(alloc);
    prints.push(Print {
        ticket,
        bytes,
        is_void: false,
    })?;
    queue.add(&mut prints)?;
    Ok(())
}

#[test]
fn a_gap_is_closed_and_then_a_write_fails(rt: HostRuntime) -> Result<(), Fail> {
    let alloc = rt.alloc();
    let failing = Vec::from_slice(alloc, &[4])?;
    let mut sink = MemSink::new(alloc, 100, failing)?;
    let mut queue = PrintQueue::new(alloc);
    add(alloc, &mut queue, 2, "third ")?;
    add(alloc, &mut queue, 0, "first ")?;
    assert!(rt; queue.flush(&mut sink).is_ok());
    assert_eq!(rt; sink.bytes(), b"first ".as_slice());
    add(alloc, &mut queue, 3, "fourth ")?;
    add(alloc, &mut queue, 1, "second ")?;
    assert!(rt; queue.flush(&mut sink).is_err());
    assert_eq!(rt; sink.bytes(), b"first second third ".as_slice());
    Ok(())
}
