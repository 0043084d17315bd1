//! The program: passes its words and standard streams to `rgo` of rgo_run, and exits with the status that this returns. `rgo` is
//! generic in its streams, so that tests can call it with others.
#![tactic(auto)]

use rgo_outside::{NoGate, StdSink, StdSource};
use rgo_run::rgo;
use std::env;
use std::io::{self, ErrorKind};
use std::process::ExitCode;

fn words(rt: &HostRuntime) -> io::Result<Vec<String>> {
    env::args(rt)?.collect(rt.alloc()).map_err(io::Error::from)
}

fn main(rt: HostRuntime) -> ExitCode {
    let words = match words(&rt) {
        Ok(words) => words,
        // Words that are not UTF-8 name no command, so `rgo` gets none and reports its usage, with status 64.
        Err(error) if error.kind() == ErrorKind::InvalidData => Vec::new(rt.alloc()),
        Err(_) => {
            let _ = rt.eprintln("rgo: out of memory");
            return ExitCode::from(11);
        }
    };
    let mut source = StdSource::new(rt.stdin());
    let mut out = StdSink::new(rt.stdout());
    let mut err = StdSink::new(rt.stderr());
    let status = rgo(
        &rt,
        rt.alloc(),
        words.as_slice(),
        &mut source,
        &mut out,
        &mut err,
        &NoGate,
    );
    ExitCode::from(status)
}
