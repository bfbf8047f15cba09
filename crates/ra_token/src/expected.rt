ghost use Rattle.std.specs.Prelude.{◌≡◌, ◌<◌, ◌≤◌, ◌^◌, ◌↔◌, ℕ, true, false, List, Some, Option, length, IfSome, IfNone};
ghost use Rattle.std.specs.Option.{ForSome, ForNone};
ghost use Rattle.ra_token.specs.Lines.{FirstUnlike};
ghost use Rattle.ra_token.specs.Comparing.{is_byte_at, opened, WasGiven};

use crate::line_scan::{count_ends, same_length};
use ra_io::{Failed, Sink};

/// A sink that compares the bytes it is given with the expected ones. It takes the bytes that agree and the first one
/// that doesn't, and fails after that. So once a call has written a text to a new sink, the sink tells whether the text
/// is the expected one, whether or not the call failed.
#[derive(Drop)]
pub struct Expected<'a> {
    expected: &'a [u8],
    agreed: usize,
    other: Option<u8>,
    faults: u64,
    pub ghost within: { agreed ≤ length expected.now },
    pub ghost differs: { ForSome other (λ b. is_byte_at expected.now agreed b ≡ false) },
    pub ghost sound: { ForNone other (faults ≡ 0) },
    pub ghost small: { faults < 2 ^ 64 },
}

impl<'a> Expected<'a> {
    ghost use Rattle.ra_token.specs.Expecteds as sink;

    /// A sink that was given nothing yet.
    pub fn make(expected: &'a [u8]) -> Expected<'a>
        ensures none { sink.taken result ≡ opened expected.now }
        ensures sound { sink.faults result ≡ 0 }
    {
        Expected {
            expected,
            agreed: 0,
            other: None,
            faults: 0,
        }
    }

    /// Whether the sink was given exactly the expected bytes.
    pub fn is_same(&self) -> bool
        ensures { (expected text : List ℕ) → WasGiven expected
            (sink.taken self.now) (sink.faults self.now) text →
            (result ≡ true) ↔ (text ≡ expected) }
    {
        match self.other {
            None => self.agreed == self.expected.len(),
            Some(_) => false,
        }
    }

    /// The number of the first line, counted from 0, at which the given and the expected bytes differ, or which only
    /// one of them has; none if they are equal.
    pub fn unlike_line(&self) -> Option<usize>
        ensures same { (expected text : List ℕ) → WasGiven expected
            (sink.taken self.now) (sink.faults self.now) text →
            IfNone result (text ≡ expected) }
        ensures unlike { (expected text : List ℕ) → WasGiven expected
            (sink.taken self.now) (sink.faults self.now) text →
            IfSome result (FirstUnlike expected text) }
    {
        if self.is_same() {
            return None;
        }
        Some(count_ends(&self.expected[..self.agreed]))
    }
}

impl<'a> Sink for Expected<'a> {
    ghost use Rattle.ra_token.specs.Expecteds as sink;

    ghost taken = { λ s. Some (sink.taken s) };

    ghost faults = { sink.faults };

    ghost counted = { sink.counted };

    fn put(&mut self, piece: &[u8]) -> Result<usize, Failed> {
        if self.other.is_some() {
            self.faults = self.faults.saturating_add(1);
            return Err(Failed);
        }
        let same = same_length(&self.expected[self.agreed..], piece);
        self.agreed += same;
        if same == piece.len() {
            return Ok(same);
        }
        self.other = Some(piece[same]);
        Ok(same + 1)
    }
}
