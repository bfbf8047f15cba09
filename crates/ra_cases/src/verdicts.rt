ghost use Rattle.std.specs.Prelude.{OnOk};
ghost use Rattle.std.specs.Io.KnownBytes.{Appends};
ghost use Rattle.ra_cases.specs.Endings.{case_line, Grows};

use crate::endings::Ending;
use crate::trouble::Trouble;
use ra_io::{Failed, Sink, put_all};
use std::alloc::{AllocError, Global};

/// Puts the line of a case: its name, and whether it ended as it should.
#[tactic(auto, unfolding(crate::specs::Endings::case_line))]
pub(crate) fn put_verdict<O: Sink>(sink: &mut O, name: &str, same: bool) -> Result<(), Failed>
    ensures { OnOk result
        (Appends (O.taken sink.old) (O.taken sink.new) (case_line name.now same)) }
{
    put_all(sink, name.as_bytes())?;
    if same {
        put_all(sink, ": ok\n".as_bytes())
    } else {
        put_all(sink, ": FAILED\n".as_bytes())
    }
}

/// Puts the wanted ending beside the actual one.
pub(crate) fn put_difference<O: Sink>(
    alloc: Global,
    sink: &mut O,
    each: usize,
    came: &Ending<'_>,
    wanted: &Ending<'_>,
) -> Result<(), Trouble>
    ensures { OnOk result (Grows (O.taken sink.old) (O.taken sink.new)) }
{
    let text = difference(alloc, each, came, wanted)?;
    put_all(sink, text.as_slice())?;
    Ok(())
}

/// The wanted ending beside the actual one, with the number of bytes that files gave at once.
fn difference(
    alloc: Global,
    each: usize,
    came: &Ending<'_>,
    wanted: &Ending<'_>,
) -> Result<Vec<u8>, AllocError> {
    let (has, wants) = (came.status, wanted.status);
    let head = format!(in alloc; "  status {wants} wanted, {has} came, {each} bytes at once\n")?;
    let text = beside(alloc, head.as_str(), came, wanted);
    drop(head);
    text
}

/// The wanted ending beside the actual one, after this head.
fn beside(
    alloc: Global,
    head: &str,
    came: &Ending<'_>,
    wanted: &Ending<'_>,
) -> Result<Vec<u8>, AllocError> {
    let mut text = Vec::new(alloc);
    push_ends(head, came, wanted, &mut text)?;
    Ok(text)
}

/// Adds the head, and the wanted ending beside the actual one.
fn push_ends(
    head: &str,
    came: &Ending<'_>,
    wanted: &Ending<'_>,
    text: &mut Vec<u8>,
) -> Result<(), AllocError> {
    text.extend_from_slice(head.as_bytes())?;
    push_end("  output wanted:\n", wanted.out, text)?;
    push_end("  output came:\n", came.out, text)?;
    push_end("  error line wanted:\n", wanted.err, text)?;
    push_end("  error line came:\n", came.err, text)
}

/// Adds bytes below their title.
fn push_end(title: &str, bytes: &[u8], text: &mut Vec<u8>) -> Result<(), AllocError> {
    text.extend_from_slice(title.as_bytes())?;
    text.extend_from_slice(bytes)?;
    text.push(b'\n')?;
    Ok(())
}

/// Puts a line in two pieces.
pub(crate) fn put_line<O: Sink>(sink: &mut O, first: &str, second: &str) -> Result<(), Failed> {
    put_all(sink, first.as_bytes())?;
    put_all(sink, second.as_bytes())?;
    put_all(sink, "\n".as_bytes())
}
