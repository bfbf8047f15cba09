ghost use Rattle.std.specs.Prelude.{◌≡◌, ◌≢◌, ◌+◌, ◌*◌, ◌≤◌, ◌++◌, ℕ, List, [], Ok, true, length, IfSome, IfErr, IsOk};
ghost use Rattle.ra_io.specs.Outside.{reading};
ghost use Rattle.ra_token.specs.Reading.{Reads};
ghost use Rattle.ra_journal.specs.declared.entries.Entry.{Entry as Recorded};
ghost use Rattle.ra_report.specs.JournalTexts.{entry_line};
ghost use Rattle.ra_verify.specs.Checking.{checker_entries, IsOpen, MayFollow, IsSameRun, HasTakenLine};
ghost use Rattle.ra_verify.specs.Reading.{AreLines, AreFirstLines};
ghost use Rattle.ra_verify.specs.Verdicts.{AreReadBy, ReadsEntries, ReadsEntry};
ghost use Rattle.ra_verify.specs.declared.faults.VerifyFault.TheVariants as fault;

use crate::checker::Checker;
use crate::faults::VerifyFault;
use crate::head::HEAD_BYTES;
use ra_base::Fixed;
use ra_io::Files;
use ra_report::{LONGEST_FRONT, LONGEST_LINE};
use ra_token::{LineReader, Next};

/// Reads what follows the first lines of a report, if there are ten of them, and takes in the entries of these lines.
pub(crate) fn read_rest<F: Files>(
    files: &mut F,
    reader: &mut LineReader,
    line: &mut Fixed<u8>,
    checker: &mut Checker<'_>,
    lines: u64,
) -> Result<(), VerifyFault>
    requires reads { Reads (F.held files.old reader.old.name) reader.old }
    requires few { lines ≤ 10 }
    requires head { IfSome (F.held files.old reader.old.name) (λ bytes.
        AreFirstLines bytes reader.old.place lines) }
    requires near { reader.old.place ≤ HEAD_BYTES }
    requires room { line.old.room ≡ LONGEST_LINE }
    requires ready { IsOpen checker.old }
    requires none { checker_entries checker.old ≡ [] }
    ensures { ReadsEntries (reading F.Files files.old files.new) reader.old.name lines
        checker.old checker.new result }
{
    if lines == 10 {
        read_entries(files, reader, line, checker)
    } else {
        Ok(())
    }
}

/// Reads the entry lines of a report, after its first ten lines, and takes in their entries.
fn read_entries<F: Files>(
    files: &mut F,
    reader: &mut LineReader,
    line: &mut Fixed<u8>,
    checker: &mut Checker<'_>,
) -> Result<(), VerifyFault>
    requires reads { Reads (F.held files.old reader.old.name) reader.old }
    requires head { IfSome (F.held files.old reader.old.name) (λ bytes.
        AreLines bytes reader.old.place 10) }
    requires near { reader.old.place ≤ HEAD_BYTES }
    requires room { line.old.room ≡ LONGEST_LINE }
    requires ready { IsOpen checker.old }
    requires none { checker_entries checker.old ≡ [] }
    ensures { ReadsEntries (reading F.Files files.old files.new) reader.old.name 10
        checker.old checker.new result }
{
    while read_entry(files, reader, line, checker)? {}
    Ok(())
}

/// Reads the next entry line and takes its entry in, and says whether there was one.
fn read_entry<F: Files>(
    files: &mut F,
    reader: &mut LineReader,
    line: &mut Fixed<u8>,
    checker: &mut Checker<'_>,
) -> Result<bool, VerifyFault>
    requires reads { Reads (F.held files.old reader.old.name) reader.old }
    requires read { IfSome (F.held files.old reader.old.name) (λ bytes.
        AreReadBy checker.old bytes reader.old.place checker.old) }
    requires near { reader.old.place ≤ HEAD_BYTES + LONGEST_LINE * length (checker_entries checker.old) }
    requires room { line.old.room ≡ LONGEST_LINE }
    requires ready { IsOpen checker.old }
    ensures entry { ReadsEntry (reading F.Files files.old files.new) reader.old reader.new
        checker.old checker.new result }
    ensures near { reader.new.place ≤ reader.old.place + LONGEST_LINE }
    ensures room { line.new.room ≡ line.old.room }
{
    line.clear();
    match reader.next(files, LONGEST_LINE - 1, line)? {
        Next::Line | Next::Long => take_entry(line.as_slice(), checker),
        Next::Last => Err(wrong_entry(checker)),
        Next::End => Ok(false),
    }
}

/// Takes in the entry that a line of a report tells, if it may follow.
fn take_entry(line: &[u8], checker: &mut Checker<'_>) -> Result<bool, VerifyFault>
    requires ready { IsOpen checker.old }
    ensures right { IsOk result → (result ≡ Ok true) × HasTakenLine checker.old checker.new
        line.now }
    ensures wrong { IfErr result (λ why. (why ≡ fault.Wrong (11 + length (checker_entries checker.old)))
        × ((e : Recorded) → MayFollow checker.old e
        → line.now ≢ entry_line (length (checker_entries checker.old)) e)) }
    ensures short { (e : Recorded) (rest : List ℕ) → MayFollow checker.old e
        → LONGEST_FRONT ≤ length line.now
        → line.now ++ rest ≡ entry_line (length (checker_entries checker.old)) e
        → length (entry_line (length (checker_entries checker.old)) e) ≤ LONGEST_LINE }
    ensures same { IsSameRun checker.old checker.new }
{
    let wrong = wrong_entry(checker);
    if checker.take_line(line) {
        Ok(true)
    } else {
        Err(wrong)
    }
}

/// The refusal of the line after those of the entries so far.
fn wrong_entry(checker: &Checker<'_>) -> VerifyFault
    ensures { result ≡ fault.Wrong (11 + length (checker_entries checker.now)) }
{
    VerifyFault::Wrong {
        line: 11 + checker.journal.len(),
    }
}
