//! A sink that takes one byte in each call: what is written whole is written in many calls.

ghost use Rattle.std.specs.Prelude.{None};

use crate::checks::same;
use rgo_outside::{Failed, NoFaultSink, Sink, WriteFault, write_all};
use std::process::Abort;

/// Takes one byte in each call, 16 at most.
#[derive(Drop)]
pub(crate) struct SlowSink {
    pub(crate) bytes: [u8; 16],
    filled: usize,
    room: usize,
    faults: u64,
    broken: bool,
}

impl SlowSink {
    /// A sink that takes `room` bytes in all.
    pub(crate) fn new(room: usize) -> Self {
        SlowSink {
            bytes: [0; 16],
            filled: 0,
            room: room.min(16),
            faults: 0,
            broken: false,
        }
    }
}

impl Sink for SlowSink {
    ghost contents = { λ _. None };

    ghost faults = { λ s. s.faults };

    ghost broken = { λ s. s.broken };

    ghost pieces = { λ _. None };

    fn write(&mut self, bytes: &[u8]) -> Result<usize, Failed> {
        if bytes.is_empty() {
            return Ok(0);
        }
        if self.filled >= self.room.min(16) {
            self.faults = self.faults.saturating_add(1);
            self.broken = true;
            return Err(Failed);
        }
        self.broken = false;
        self.bytes[self.filled] = bytes[0];
        self.filled += 1;
        Ok(1)
    }
}

/// Writes a text whole, and compares whether that failed.
fn is_written<R: Abort, K: Sink>(
    rt: &R,
    sink: &mut K,
    text: &str,
    wanted: &Result<(), WriteFault>,
) {
    same(rt, text, &write_all(sink, text.as_bytes()), wanted);
}

#[test]
fn a_slow_sink_is_written_to_the_end(rt: HostRuntime) {
    let mut sink = SlowSink::new(4);
    is_written(&rt, &mut sink, "abc", &Ok(()));
    is_written(&rt, &mut sink, "de", &Err(WriteFault { written: 1 }));
    same(&rt, "the sink", &&sink.bytes[..4], &b"abcd".as_slice());
    is_written(&rt, &mut NoFaultSink, "abc", &Ok(()));
}
