ghost use Rattle.std.specs.Prelude.{◌≤◌, OnOk, OnErr};
ghost use Rattle.std.specs.Io.KnownBytes.{Appends};
ghost use Rattle.ra_io.specs.Faults.{Rose};
ghost use Rattle.ra_io.specs.Pieces.{AppendsPart};

use crate::outside::{Failed, Sink};

/// Puts a whole text to a sink, piece by piece. After a failure the sink has taken a prefix of it.
pub fn put_all<S: Sink>(sink: &mut S, text: &[u8]) -> Result<(), Failed>
    ensures whole { OnOk result (Appends (S.taken sink.old) (S.taken sink.new) text.now) }
    ensures failed { OnErr result (Rose (S.faults sink.old) (S.faults sink.new)) }
    ensures part { OnErr result (AppendsPart (S.taken sink.old) (S.taken sink.new) text.now) }
    ensures never_falls { S.faults sink.old ≤ S.faults sink.new }
{
    let mut at = 0;
    while at < text.len() {
        at += sink.put(&text[at..])?;
    }
    Ok(())
}
