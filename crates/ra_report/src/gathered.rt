ghost use Rattle.std.specs.Prelude.{◌≡◌, ◌≤◌, [], true, false, OnOk, OnErr};
ghost use Rattle.ra_report.specs.Gathering.{MovesText, AddsText};

use crate::waiting::Waiting;
use ra_io::{Sink, put_all};

/// A put failed: the sink took a front of the text, and its count of faults rose.
#[derive(Clone, Copy, Debug, PartialEq, Eq)]
pub enum WriteFault {
    Put,
}

/// A text on its way to a sink: what is added waits until no more fits, and is then put in one piece. After a put has
/// failed, nothing more is put.
#[derive(Drop)]
pub struct Gathered<'a, O: Sink> {
    pub(crate) to: &'a mut O,
    pub(crate) waiting: Waiting,
    pub(crate) failed: bool,
}

impl<'a, O: Sink> Gathered<'a, O> {
    /// A gathered text without bytes.
    pub fn make(to: &'a mut O) -> Gathered<'a, O>
        ensures same_reference { result.to.ghost_name ≡ to.entry.ghost_name }
        ensures same { result.to.now ≡ to.old }
        ensures none { result.waiting ≡ [] }
        ensures sound { result.failed ≡ false }
    {
        Gathered {
            to,
            waiting: Waiting::new(),
            failed: false,
        }
    }

    /// Adds a piece.
    #[inline(always)]
    pub fn add(&mut self, piece: &[u8])
        ensures { AddsText O.taken O.faults self.old self.new piece.now }
    {
        if !self.waiting.add(piece) {
            self.add_past(piece);
        }
    }

    /// Adds a piece that no longer fits: it first puts what waits.
    #[cold]
    #[inline(never)]
    fn add_past(&mut self, piece: &[u8])
        ensures { AddsText O.taken O.faults self.old self.new piece.now }
    {
        self.put_waiting();
        if !self.waiting.add(piece) {
            self.put(piece);
        }
    }

    /// Whether a put has failed.
    pub fn has_failed(&self) -> bool
        ensures { result ≡ self.now.failed }
    {
        self.failed
    }

    /// Puts what still waits, and says whether the sink took all that was added.
    pub fn finish(&mut self) -> Result<(), WriteFault>
        ensures adds { AddsText O.taken O.faults self.old self.new [] }
        ensures none { self.new.waiting ≡ [] }
        ensures whole { OnOk result (self.new.failed ≡ false) }
        ensures part { OnErr result (self.new.failed ≡ true) }
    {
        self.put_waiting();
        if self.failed {
            Err(WriteFault::Put)
        } else {
            Ok(())
        }
    }

    /// Puts what waits.
    fn put_waiting(&mut self)
        ensures adds { AddsText O.taken O.faults self.old self.new [] }
        ensures none { self.new.waiting ≡ [] }
    {
        self.failed = put_unless(self.failed, self.to, self.waiting.as_slice());
        self.waiting.clear();
    }

    /// Puts a piece, while nothing waits.
    fn put(&mut self, piece: &[u8])
        requires { self.old.waiting ≡ [] }
        ensures { AddsText O.taken O.faults self.old self.new piece.now }
    {
        self.failed = put_unless(self.failed, self.to, piece);
    }
}

/// Puts a text, unless a put has failed before, and says whether one has.
fn put_unless<O: Sink>(failed: bool, to: &mut O, text: &[u8]) -> bool
    ensures moves { MovesText failed result (O.taken to.old) (O.taken to.new) (O.faults to.old)
        (O.faults to.new) [] [] text.now }
    ensures never_falls { O.faults to.old ≤ O.faults to.new }
{
    failed || put_all(to, text).is_err()
}
