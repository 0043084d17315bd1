//! Texts read and written to the end, in pieces and past faults, over each source and sink.

use crate::checks::same;
use rgo_outside::{
    MemSink, MemSource, NoFaultSource, ReadEnd, Sink, Source, StdSink, StdSource, WriteFault,
    read_all, write_all,
};
use std::io::{self, ErrorKind, Read, Write};
use std::process::Abort;
use std::test::Fail;

/// A writer that takes at most `moved` bytes and whose flushes may fail, and a reader that fails.
#[derive(Drop)]
struct Stuck {
    moved: usize,
    flush_fails: bool,
}

impl Write for Stuck {
    fn write(&mut self, buf: &[u8]) -> io::Result<usize> {
        Ok(self.moved.min(buf.len()))
    }

    fn flush(&mut self) -> io::Result<()> {
        if self.flush_fails {
            return Err(io::Error::from(ErrorKind::BrokenPipe));
        }
        Ok(())
    }
}

impl Read for Stuck {
    fn read(&mut self, _buf: &mut [u8]) -> io::Result<usize> {
        Err(io::Error::from(ErrorKind::BrokenPipe))
    }
}

/// Reads a source to the end, and compares the bytes or how reading ended.
fn is_read<R: Abort + AllocGlobal, S: Source>(
    rt: &R,
    source: &mut S,
    limit: usize,
    wanted: &Result<&str, ReadEnd>,
) {
    assert!(rt; limit < 1000);
    let (bytes, end) = match read_all(rt.alloc(), source, limit) {
        Ok(bytes) => (bytes, None),
        Err(end) => (Vec::new(rt.alloc()), Some(end)),
    };
    let (text, wanted_end) = match wanted {
        Ok(text) => (*text, None),
        Err(end) => ("", Some(*end)),
    };
    assert!(rt; bytes.as_slice() == text.as_bytes(), "the bytes of {text}");
    same(rt, text, &end, &wanted_end);
}

/// Texts, how many bytes a read returns at most, which read fails, the limit, and what is read.
static SOURCES: [(&str, usize, u64, usize, Result<&str, ReadEnd>); 7] = [
    ("", 1, 9, 0, Ok("")),
    ("abc", 1, 9, 3, Ok("abc")),
    ("abcd", 1, 9, 3, Err(ReadEnd::TooLong)),
    ("abcd", 4, 9, 3, Err(ReadEnd::TooLong)),
    ("abc", 2, 2, 8, Err(ReadEnd::Fault)),
    ("abc", 2, 3, 8, Err(ReadEnd::Fault)),
    ("abc", 2, 4, 8, Ok("abc")),
];

#[test]
fn sources_are_read_to_the_end(rt: HostRuntime) -> Result<(), Fail> {
    let alloc = rt.alloc();
    for (text, per_call, failing, limit, wanted) in &SOURCES {
        assert!(rt; 0 < *per_call);
        let bytes = text.as_bytes().to_vec(alloc)?;
        let failing = vec![in alloc; *failing; 1]?;
        let mut source = MemSource::new(bytes, *per_call, failing);
        is_read(&rt, &mut source, *limit, wanted);
    }
    Ok(())
}

#[test]
fn a_source_without_faults_is_read(rt: HostRuntime) -> Result<(), Fail> {
    let bytes = b"abc".as_slice().to_vec(rt.alloc())?;
    is_read(&rt, &mut NoFaultSource::new(bytes), 3, &Ok("abc"));
    Ok(())
}

#[test]
fn std_readers_are_read(rt: HostRuntime) {
    let mut source = StdSource::new(b"abc".as_slice());
    is_read(&rt, &mut source, 3, &Ok("abc"));
    let stuck = Stuck {
        moved: 0,
        flush_fails: false,
    };
    let mut source = StdSource::new(stuck);
    is_read(&rt, &mut source, 3, &Err(ReadEnd::Fault));
}

/// Writes a text whole, and compares whether that failed.
fn is_written<R: Abort, K: Sink>(
    rt: &R,
    sink: &mut K,
    text: &str,
    wanted: &Result<(), WriteFault>,
) {
    same(rt, text, &write_all(sink, text.as_bytes()), wanted);
}

/// Pieces for a sink of five bytes whose second call fails, with what the sink then has.
static PIECES: [(&str, Result<(), WriteFault>, &str); 6] = [
    ("ab", Ok(()), "ab"),
    ("cd", Err(WriteFault { written: 0 }), "ab"),
    ("", Ok(()), "ab"),
    ("cd", Ok(()), "abcd"),
    ("ef", Err(WriteFault { written: 0 }), "abcd"),
    ("g", Ok(()), "abcdg"),
];

#[test]
fn a_sink_in_memory_is_written(rt: HostRuntime) -> Result<(), Fail> {
    let alloc = rt.alloc();
    let mut sink = MemSink::new(alloc, 5, vec![in alloc; 2u64; 1]?)?;
    for (piece, wanted, kept) in &PIECES {
        is_written(&rt, &mut sink, piece, wanted);
        same(&rt, piece, &sink.bytes(), &kept.as_bytes());
    }
    Ok(())
}

/// How many bytes a writer takes, whether its flushes fail, and what a whole write reports.
static WRITERS: [(usize, bool, Result<(), WriteFault>); 3] = [
    (0, false, Err(WriteFault { written: 0 })),
    (2, true, Err(WriteFault { written: 0 })),
    (2, false, Ok(())),
];

#[test]
fn std_writers_are_written(rt: HostRuntime) {
    for (moved, flush_fails, wanted) in &WRITERS {
        let stuck = Stuck {
            moved: *moved,
            flush_fails: *flush_fails,
        };
        is_written(&rt, &mut StdSink::new(stuck), "abc", wanted);
    }
}

#[test]
fn a_vector_keeps_what_is_written(rt: HostRuntime) {
    let mut kept: Vec<u8> = Vec::new(rt.alloc());
    is_written(&rt, &mut StdSink::new(&mut kept), "abc", &Ok(()));
    same(&rt, "the vector", &kept.as_slice(), &b"abc".as_slice());
}
