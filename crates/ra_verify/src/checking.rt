ghost use Rattle.std.specs.Prelude.{◌≡◌, ◌≤◌, [], IfSome};
ghost use Rattle.ra_io.specs.Outside.{reading};
ghost use Rattle.ra_token.specs.Reading.{Reads};
ghost use Rattle.ra_verify.specs.Reading.{IsHead};
ghost use Rattle.ra_verify.specs.Verdicts.{AreAtStart, TellsOf};

use crate::checker::Checker;
use crate::entries::read_rest;
use crate::faults::VerifyFault;
use crate::head::{HEAD_BYTES, read_head};
use crate::judging::judge;
use ra_base::Fixed;
use ra_bounds::Bound;
use ra_io::Files;
use ra_report::LONGEST_LINE;
use ra_token::LineReader;
use ra_world::World;

/// Reads a report and judges it, in the memory that was taken for it: `head` keeps its first lines, and `line` each
/// further one.
pub(crate) fn check<'a, F: Files>(
    files: &mut F,
    reader: &mut LineReader,
    head: &mut Fixed<u8>,
    line: &mut Fixed<u8>,
    checker: &mut Checker<'a>,
    world: &mut World<'a>,
    bound: &Bound,
) -> Result<u64, VerifyFault>
    requires reads { Reads (F.held files.old reader.old.name) reader.old }
    requires start { reader.old.place ≡ 0 }
    requires empty { head.old.items ≡ [] }
    requires head_room { head.old.room ≡ HEAD_BYTES }
    requires line_room { line.old.room ≡ LONGEST_LINE }
    requires at_start { AreAtStart checker.old world.old bound.now }
    ensures { TellsOf checker.old (reading F.Files files.old files.new) reader.old.name result }
{
    match read_head(files, reader, head) {
        Ok(lines) => check_rest(
            files,
            reader,
            head.as_slice(),
            lines,
            line,
            checker,
            world,
            bound,
        ),
        Err(why) => Err(why),
    }
}

/// Judges a report whose first lines were read already.
fn check_rest<'a, F: Files>(
    files: &mut F,
    reader: &mut LineReader,
    head: &[u8],
    lines: u64,
    line: &mut Fixed<u8>,
    checker: &mut Checker<'a>,
    world: &mut World<'a>,
    bound: &Bound,
) -> Result<u64, VerifyFault>
    requires reads { Reads (F.held files.old reader.old.name) reader.old }
    requires few { lines ≤ 10 }
    requires near { reader.old.place ≤ HEAD_BYTES }
    requires head { IfSome (F.held files.old reader.old.name) (λ bytes.
        IsHead bytes reader.old.place lines head.now) }
    requires line_room { line.old.room ≡ LONGEST_LINE }
    requires at_start { AreAtStart checker.old world.old bound.now }
    ensures { TellsOf checker.old (reading F.Files files.old files.new) reader.old.name result }
{
    match read_rest(files, reader, line, checker, lines) {
        Ok(()) => judge(head, lines, &checker.journal, world, bound),
        Err(why) => Err(why),
    }
}
