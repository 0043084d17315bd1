//! What a run has printed goes out line by line, so that a reader of the sink never sees half a line of one goroutine before a line
//! of another.

ghost use Rattle.std.specs.Prelude.{◌≤◌, ◌<◌, length, take, IfOk, OnOk, OnErr, IsErr};
ghost use Rattle.std.specs.Io.KnownBytes.{Appends};
ghost use Rattle.rgo_round_robin.specs.Lines.{IsLineEnd, Writes};
ghost use Rattle.rgo_machine.specs.Ends.{AppendsSome};

use rgo_outside::{Failed, Sink, write_all};

/// The length of the first line, with its newline; of all bytes if there is no newline.
fn line_length(bytes: &[u8]) -> usize
    requires { 0 < length bytes.now }
    ensures some { 0 < result }
    ensures within { result ≤ length bytes.now }
    ensures line { IsLineEnd (take result bytes.now) }
{
    for i in 0..bytes.len() {
        if bytes[i] == b'\n' {
            return i + 1;
        }
    }
    bytes.len()
}

/// Writes the first line of the bytes in one piece, and returns its length.
fn write_line<K: Sink>(bytes: &[u8], out: &mut K) -> Result<usize, Failed>
    requires { 0 < length bytes.now }
    ensures line { IfOk result (λ n. (0 < n) × (n ≤ length bytes.now)
        × Appends (K.contents out.old) (K.contents out.new) (take n bytes.now)) }
    ensures part { OnErr result (AppendsSome (K.contents out.old) (K.contents out.new) bytes.now) }
    ensures sink { Writes (IsErr result) (K.faults out.old) (K.faults out.new) (K.broken out.new)
        (K.pieces out.old) (K.pieces out.new) }
{
    let count = line_length(bytes);
    match write_all(out, &bytes[..count]) {
        Ok(()) => Ok(count),
        Err(_) => Err(Failed),
    }
}

/// Writes the bytes, each line in one piece.
///
/// # Errors
///
/// If a write failed. Nothing more was written then.
pub(crate) fn write_lines<K: Sink>(bytes: &[u8], out: &mut K) -> Result<(), Failed>
    ensures whole { OnOk result (Appends (K.contents out.old) (K.contents out.new) bytes.now) }
    ensures part { OnErr result (AppendsSome (K.contents out.old) (K.contents out.new) bytes.now) }
    ensures sink { Writes (IsErr result) (K.faults out.old) (K.faults out.new) (K.broken out.new)
        (K.pieces out.old) (K.pieces out.new) }
{
    let mut written = 0;
    while written < bytes.len() {
        match write_line(&bytes[written..], out) {
            Ok(count) => written += count,
            Err(_) => return Err(Failed),
        }
    }
    Ok(())
}
