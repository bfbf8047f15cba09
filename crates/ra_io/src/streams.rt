ghost use Rattle.std.specs.Prelude.{◌≡◌, ◌<◌, ◌≤◌, if◌then◌else◌, length, None, IfOk};
ghost use Rattle.std.specs.Result.{is_err};
ghost use Rattle.ra_io.specs.Faults.{raised};

use crate::counts::Count;
use crate::outside::{Failed, Sink};
use std::io;
use std::io::{ErrorKind, Write};

/// A sink that writes to standard output, or to another writer. Contracts don't say what it took.
#[derive(Drop)]
pub struct OutSink<W: Write + Drop> {
    to: W,
    faults: Count,
}

impl<W: Write + Drop> OutSink<W> {
    /// A sink that writes to this writer.
    pub fn make(to: W) -> OutSink<W>
        ensures { ⟦<OutSink<W> as Sink>⟧.faults result ≡ 0 }
    {
        OutSink {
            to,
            faults: Count::make(),
        }
    }
}

impl<W: Write + Drop> Sink for OutSink<W> {
    ghost use Rattle.ra_io.specs.OutSink as sink;

    ghost taken = { λ s. None };

    ghost faults = { sink.faults };

    ghost counted = { sink.counted };

    fn put(&mut self, piece: &[u8]) -> Result<usize, Failed>
        ensures some { IfOk result (λ n. 0 < n) }
        ensures bound { IfOk result (λ n. n ≤ length piece.now) }
        ensures faults { sink.faults self.new ≡
            (if is_err result then raised (sink.faults self.old) else sink.faults self.old) }
    {
        let outcome = write_some(&mut self.to, piece);
        self.faults.counted(outcome)
    }
}

/// A sink that writes to standard error.
pub type ErrSink<W> = OutSink<W>;

/// Writes the front of a piece and flushes. A write of no bytes is an error.
fn write_some<W: Write>(to: &mut W, piece: &[u8]) -> io::Result<usize>
    ensures some { IfOk result (λ n. 0 < n) }
    ensures bound { IfOk result (λ n. n ≤ length piece.now) }
{
    let number = to.write(piece)?;
    to.flush()?;
    if number == 0 {
        return Err(io::Error::from(ErrorKind::WriteZero));
    }
    Ok(number)
}
