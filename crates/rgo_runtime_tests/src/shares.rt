//! Sums of what each goroutine has counted for itself.

use rgo_runtime::goroutine::body::Counts;
use rgo_runtime::shares::Shares;
use std::test::Fail;

/// This many steps, and nothing else.
fn with_steps(steps: u64) -> Counts {
    Counts {
        made: 0,
        removed: 0,
        taken: 0,
        returned: 0,
        steps,
        objects: 0,
        goroutines: 0,
    }
}

#[test]
fn shares_at_their_places_add_up(rt: HostRuntime) -> Result<(), Fail> {
    let five = with_steps(5);
    let most = with_steps(u64::MAX);
    let mut shares = Shares::new(rt.alloc());
    shares.make_room(2)?;
    shares.make_room(0)?;
    assert!(rt; shares.has_place(2));
    assert!(rt; !shares.has_place(3));
    assert!(rt; shares.make_room(u64::MAX).is_err());
    shares.set(0, &most);
    shares.set(2, &most);
    let before = shares.copy(rt.alloc())?;
    // What was counted before is among what is counted now; and the last goroutine has no place.
    shares.set(2, &five);
    shares.set(3, &five);
    assert_eq!(rt; shares.total().steps, u128::from(u64::MAX) + 5);
    assert_eq!(rt; shares.total().made, 0);
    assert_eq!(rt; before.total().steps, 2 * u128::from(u64::MAX));
    Ok(())
}
