//! `cases`: the conformance suite of `reassign` and of `anneal`. Standard input has the cases; `ra_cases` tries each,
//! and prints whether it ended as it should. The status is 0 if all did, 1 if one did not, and 2 if standard input
//! can't be read or a line can't be written.
#![tactic(auto)]

use ra_cases::try_all;
use ra_io::OutSink;
use std::io;
use std::process::ExitCode;

fn main(rt: HostRuntime) -> ExitCode {
    let Ok(text) = io::read_to_string(rt.alloc(), rt.stdin()) else {
        return ExitCode::from(2);
    };
    let mut sink = OutSink::make(rt.stdout());
    match try_all(&rt, rt.alloc(), text.as_str(), &mut sink) {
        Ok(tally) => ExitCode::from(if tally.failed == 0 { 0 } else { 1 }),
        Err(_) => ExitCode::from(2),
    }
}
