ghost use Rattle.std.specs.Prelude.{◌≡◌, ◌≢◌, ◌≤◌, [], IfOk};
ghost use Rattle.ra_io.specs.Outside.{reading};
ghost use Rattle.ra_token.specs.Reading.{Reads};
ghost use Rattle.ra_verify.specs.Verdicts.{ReadsHead};
ghost use Rattle.ra_verify.specs.WrongLines.{most_bytes};

use crate::faults::VerifyFault;
use ra_base::Fixed;
use ra_io::Files;
use ra_token::{LineReader, Next};

/// The most bytes of ten lines of which none is over long, with their LF: nine of 64, and one of 600,000.
pub(crate) const HEAD_BYTES: usize = 600_586;

/// Reads the first ten lines of a report, or all if it has fewer, and gives their number.
pub(crate) fn read_head<F: Files>(
    files: &mut F,
    reader: &mut LineReader,
    head: &mut Fixed<u8>,
) -> Result<u64, VerifyFault>
    requires reads { Reads (F.held files.old reader.old.name) reader.old }
    requires start { reader.old.place ≡ 0 }
    requires empty { head.old.items ≡ [] }
    requires room { head.old.room ≡ HEAD_BYTES }
    ensures head { ReadsHead (reading F.Files files.old files.new) reader.old reader.new
        head.new.items result }
    ensures near { IfOk result (λ n. reader.new.place ≤ HEAD_BYTES) }
{
    for n in 0..10 {
        match reader.next(files, most_bytes(n), head)? {
            Next::Line => {}
            Next::Last => return Ok(n + 1),
            Next::Long => return Err(VerifyFault::Wrong { line: n + 1 }),
            Next::End => return Ok(n),
        }
    }
    Ok(10)
}

/// How many bytes may come before the LF or the end of a line of the head, counted from 0.
#[tactic(auto, unfolding(crate::specs::WrongLines::most_bytes))]
fn most_bytes(n: u64) -> usize
    ensures value { result ≡ most_bytes n }
    ensures most { result ≤ 600000 }
    ensures assignment { n ≢ 8 → result ≡ 64 }
{
    if n == 8 { 600_000 } else { 64 }
}
