//! `anneal`: looks for assignments of the machine reassignment problem that cost less.
//!
//! The program is thin: it passes the words of the command line and the files and streams of the system to the top
//! call.
#![tactic(auto)]

use ra_anneal::{anneal_run, refuse_unread};
use ra_io::{DiskFiles, ErrSink, OutSink};
use std::io;
use std::process::ExitCode;
use std::rt::Env;

fn main(rt: HostRuntime) -> ExitCode {
    let mut files = DiskFiles::make(&rt);
    let mut out = OutSink::make(rt.stdout());
    let mut err = ErrSink::make(rt.stderr());
    let status = match words_of(&rt) {
        Ok(words) => anneal_run(
            &rt,
            rt.alloc(),
            words.as_slice(),
            &mut files,
            &mut out,
            &mut err,
        ),
        Err(error) => refuse_unread(&mut err, &error),
    };
    ExitCode::from(status.number())
}

/// The words of the command line after the program's name.
fn words_of<R: Env + AllocGlobal>(rt: &R) -> io::Result<Vec<String>> {
    let mut all = std::env::args(rt)?;
    let _program = all.next();
    let mut words = Vec::new(rt.alloc());
    for word in all {
        words.push(word)?;
    }
    Ok(words)
}
