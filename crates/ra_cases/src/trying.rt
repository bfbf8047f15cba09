ghost use Rattle.std.specs.Prelude.{◌≡◌, ◌<◌, Ok, true, false};
ghost use Rattle.std.specs.Io.KnownBytes.{Appends};
ghost use Rattle.ra_cases.specs.declared.asking.Asked.{Asked};
ghost use Rattle.ra_cases.specs.Endings.{case_line, Grows, TellsFailure};
ghost use Rattle.ra_cases.specs.Runs.{Ends, EndsSo, RunsAt, RunsAtEach};

use crate::asking::Asked;
use crate::endings::{Ending, is_same};
use crate::parts::{Case, number, program_of, wanted, words_of};
use crate::stages::{Stage, run_on, stage_of};
use crate::trouble::Trouble;
use crate::verdicts::{put_difference, put_verdict};
use ra_io::Sink;
use std::alloc::Global;
use std::marker::Sync;
use std::sync::Wait;
use std::thread::Threads;

/// How many bytes files give at once if a case doesn't say it: the case is run with each of these.
const CUTS: [usize; 4] = [1, 7, 65_535, 65_536];

/// Runs a case on a stage: whether the run ends as it should, with the wanted output and error line. If it doesn't, it
/// puts the actual ending beside the wanted one.
fn try_stage<R: Threads + Wait + Sync, O: Sink>(
    rt: &R,
    alloc: Global,
    stage: &mut Stage,
    each: usize,
    asked: &Asked<'_>,
    sink: &mut O,
) -> Result<bool, Trouble>
    ensures ends { result ≡ Ok true → Ends asked.now stage.old stage.new }
    ensures no_line { result ≡ Ok true → sink.new ≡ sink.old }
    ensures other { result ≡ Ok false → Grows (O.taken sink.old) (O.taken sink.new) }
{
    let status = run_on(rt, alloc, asked.program, asked.words, stage);
    let came = Ending {
        status: status.number(),
        out: stage.out.bytes(),
        err: stage.err.bytes(),
    };
    if is_same(&came, &asked.ending) {
        return Ok(true);
    }
    put_difference(alloc, sink, each, &came, &asked.ending)?;
    Ok(false)
}

/// Runs a case whose files give at most `each` bytes at once: whether it ends as it should.
fn try_cut<R: Threads + Wait + Sync, O: Sink>(
    rt: &R,
    alloc: Global,
    case: &Case<'_>,
    each: usize,
    asked: &Asked<'_>,
    sink: &mut O,
) -> Result<bool, Trouble>
    requires { 0 < each }
    ensures ran { result ≡ Ok true → RunsAt asked.now each }
    ensures no_line { result ≡ Ok true → sink.new ≡ sink.old }
    ensures other { result ≡ Ok false → Grows (O.taken sink.old) (O.taken sink.new) }
{
    let mut stage = stage_of(alloc, case, each)?;
    let tried = try_stage(rt, alloc, &mut stage, each, asked, sink);
    drop(stage);
    tried
}

/// Runs a case with each of the cuts, up to the first with which it doesn't end as it should.
fn try_cuts<R: Threads + Wait + Sync, O: Sink>(
    rt: &R,
    alloc: Global,
    case: &Case<'_>,
    asked: &Asked<'_>,
    sink: &mut O,
) -> Result<bool, Trouble>
    ensures ran { result ≡ Ok true → RunsAtEach asked.now CUTS }
    ensures no_line { result ≡ Ok true → sink.new ≡ sink.old }
    ensures other { result ≡ Ok false → Grows (O.taken sink.old) (O.taken sink.new) }
{
    for each in CUTS {
        if !try_cut(rt, alloc, case, each, asked, sink)? {
            return Ok(false);
        }
    }
    Ok(true)
}

/// Runs a case with the cut that it names, or with each: whether it ends as it should.
fn ends_so<R: Threads + Wait + Sync, O: Sink>(
    rt: &R,
    alloc: Global,
    case: &Case<'_>,
    asked: &Asked<'_>,
    sink: &mut O,
) -> Result<bool, Trouble>
    ensures ran { result ≡ Ok true → EndsSo asked.now }
    ensures no_line { result ≡ Ok true → sink.new ≡ sink.old }
    ensures other { result ≡ Ok false → Grows (O.taken sink.old) (O.taken sink.new) }
{
    match asked.gives {
        Some(0) => Err(Trouble::Unclear),
        Some(each) => try_cut(rt, alloc, case, each as usize, asked, sink),
        None => try_cuts(rt, alloc, case, asked, sink),
    }
}

/// Runs a case, and puts its line: whether it ended as it should.
pub(crate) fn try_case<R: Threads + Wait + Sync, O: Sink>(
    rt: &R,
    alloc: Global,
    case: &Case<'_>,
    name: &str,
    sink: &mut O,
) -> Result<bool, Trouble>
    ensures ran { result ≡ Ok true → ((asked : Asked) × EndsSo asked) }
    ensures ok { result ≡ Ok true
        → Appends (O.taken sink.old) (O.taken sink.new) (case_line name.now true) }
    ensures failed { result ≡ Ok false
        → TellsFailure (O.taken sink.old) (O.taken sink.new) name.now }
{
    let program = program_of(case)?;
    let gives = number(alloc, case, "fetch-gives")?;
    let Some(status) = number(alloc, case, "status")? else {
        return Err(Trouble::Unclear);
    };
    let words = words_of(alloc, case)?;
    let out = wanted(alloc, case, "out")?;
    let err = wanted(alloc, case, "err")?;
    let ending = Ending {
        status: status.min(255) as u8,
        out: out.as_slice(),
        err: err.as_slice(),
    };
    let asked = Asked {
        program,
        words: words.as_slice(),
        gives,
        ending,
    };
    tell_case(rt, alloc, case, name, &asked, sink)
}

/// Runs a case that asks for this, and puts its line: whether it ended as it should.
fn tell_case<R: Threads + Wait + Sync, O: Sink>(
    rt: &R,
    alloc: Global,
    case: &Case<'_>,
    name: &str,
    asked: &Asked<'_>,
    sink: &mut O,
) -> Result<bool, Trouble>
    ensures ran { result ≡ Ok true → EndsSo asked.now }
    ensures ok { result ≡ Ok true
        → Appends (O.taken sink.old) (O.taken sink.new) (case_line name.now true) }
    ensures failed { result ≡ Ok false
        → TellsFailure (O.taken sink.old) (O.taken sink.new) name.now }
{
    let same = ends_so(rt, alloc, case, asked, sink)?;
    put_verdict(sink, name, same)?;
    Ok(same)
}
