//! Parking and waking goroutines, for which numbers are used here.

use rgo_runtime::goroutine::waking::OperationKind;
use rgo_runtime::parking::Parked;
use rgo_runtime::queues::Queues;
use std::test::Fail;

#[test]
fn the_oldest_of_one_operation_and_then_all(rt: HostRuntime) -> Result<(), Fail> {
    let mut parked = Parked::new(rt.alloc());
    parked.park(64, OperationKind::Receive, 1u8, false)?;
    parked.park(72, OperationKind::Receive, 2, false)?;
    parked.park(64, OperationKind::Receive, 3, false)?;
    parked.park(64, OperationKind::Send, 4, false)?;
    // This one was woken for nothing, and is the oldest again.
    parked.park(64, OperationKind::Receive, 5, true)?;
    let mut woken = Vec::new(rt.alloc());
    assert_eq!(rt;
        parked.unpark(64, OperationKind::Receive, 2, &mut woken)?,
        2
    );
    assert_eq!(rt; woken.as_slice(), [5, 1].as_slice());
    assert_eq!(rt;
        parked.unpark(64, OperationKind::Acknowledge, 2, &mut woken)?,
        0
    );
    assert_eq!(rt;
        parked.unpark(64, OperationKind::Receive, 9, &mut woken)?,
        1
    );
    assert_eq!(rt; woken.as_slice(), [5, 1, 3].as_slice());
    assert!(rt; parked.is_waited_at(72, OperationKind::Receive));
    assert!(rt; !parked.is_waited_at(64, OperationKind::Receive));
    assert!(rt; parked.is_waited_at(64, OperationKind::Send));
    assert!(rt; !parked.is_empty());
    parked.unpark_all(&mut woken)?;
    woken.sort_unstable();
    assert_eq!(rt; woken.as_slice(), [1, 2, 3, 4, 5].as_slice());
    assert!(rt; parked.is_empty());
    Ok(())
}

#[test]
fn one_address_after_the_other(rt: HostRuntime) -> Result<(), Fail> {
    let mut queues = Queues::new(rt.alloc());
    queues.push(64, 1u8, false)?;
    queues.push(72, 2, false)?;
    queues.push(64, 3, false)?;
    let mut taken = Vec::new(rt.alloc());
    assert_eq!(rt; queues.take(72, 9, &mut taken)?, 1);
    assert_eq!(rt; queues.len(), 2);
    // The queue of the last address is empty now, and is passed over.
    assert!(rt;
        queues
            .pop()
            .is_some_and(|values| values.as_slice() == [1, 3].as_slice())
    );
    assert_eq!(rt; queues.len(), 0);
    assert!(rt; queues.pop().is_none());
    Ok(())
}
