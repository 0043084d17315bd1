//! More room on a stack. It doubles, so that the time spent on growing is proportional to the calls. The first list of callers is
//! short, since many goroutines call little and wait.

ghost use Rattle.std.specs.Prelude.{◌≡◌, ◌+◌, ◌<◌, ◌≤◌, OnOk, length, take};
ghost use Rattle.rgo_sound.specs.Machine.Limits.{deepest};

use rgo_compact::Caller;
use rgo_sound::machine::DEEPEST;
use std::alloc::AllocError;

/// The length of the first list of callers: few, since a goroutine that waits should take little memory.
const FIRST_CALLERS: usize = 4;

/// At least `needed` words. On allocation failure nothing has changed.
pub(crate) fn widen(words: &mut Vec<u64>, needed: usize) -> Result<(), AllocError>
    ensures wide { OnOk result (needed ≤ length words.new.items) }
    ensures longer { length words.old.items ≤ length words.new.items }
    ensures kept { take (length words.old.items) words.new.items ≡ words.old.items }
{
    if words.len() < needed {
        words.resize(needed.max(words.len().saturating_mul(2)), 0)?;
    }
    Ok(())
}

/// Room for a caller of this depth. On allocation failure nothing has changed.
pub(crate) fn deepen(callers: &mut Vec<Caller>, depth: usize) -> Result<(), AllocError>
    requires depth { depth + 1 < deepest }
    requires room { length callers.old.items < deepest }
    ensures deep { OnOk result (depth < length callers.new.items) }
    ensures room { length callers.new.items < deepest }
    ensures longer { length callers.old.items ≤ length callers.new.items }
    ensures kept { take (length callers.old.items) callers.new.items ≡ callers.old.items }
{
    if callers.len() <= depth {
        let nobody = Caller {
            function: 0,
            next: 0,
            base: 0,
        };
        let twice = (2 * callers.len()).max(FIRST_CALLERS).min(DEEPEST - 1);
        callers.resize(twice.max(depth + 1), nobody)?;
    }
    Ok(())
}
