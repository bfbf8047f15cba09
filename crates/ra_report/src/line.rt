ghost use Rattle.std.specs.Prelude.{◌≡◌, [], ◌∷◌, length};
ghost use Rattle.ra_report.specs.Lines.{HasRoomForBytes, Prepends};
ghost use Rattle.ra_report.specs.Texts.{number_text};

use itoa::{Buffer, write_digits};
use std::marker::Model;

/// How many bytes fit into a line.
pub const LINE_ROOM: usize = 400;

/// A line that is written from its end to its front, so that the digits of a number are written directly to their
/// places. Contracts see its bytes.
#[derive(Drop)]
pub struct Line {
    bytes: [u8; LINE_ROOM],
    from: usize,
}

impl Model for Line {
    ghost use Rattle.std.specs.Prelude.{ℕ, ◌≤◌, List, drop};

    ghost Value = { List ℕ };

    ghost view = { λ l. drop l.from l.bytes };

    ghost invariant = { λ l. l.from ≤ 400 };
}

impl Line {
    /// An empty line.
    pub fn new() -> Line
        ensures { result ≡ [] }
    {
        Line {
            bytes: [0; LINE_ROOM],
            from: LINE_ROOM,
        }
    }

    /// Empties the line.
    pub fn clear(&mut self)
        ensures { self.new ≡ [] }
    {
        self.from = LINE_ROOM;
    }

    /// Its bytes.
    #[inline(always)]
    pub fn as_slice(&self) -> &[u8]
        ensures { result.now ≡ self.now }
    {
        &self.bytes[self.from..]
    }

    /// Writes a word in front.
    #[inline(always)]
    pub fn prepend(&mut self, word: &[u8])
        requires { HasRoomForBytes self.old (length word.now) }
        ensures { Prepends self.old self.new word.now (length word.now) }
    {
        let to = self.from;
        self.from = to - word.len();
        self.bytes[self.from..to].copy_from_slice(word);
    }

    /// Writes a byte in front.
    #[inline(always)]
    pub fn prepend_byte(&mut self, byte: u8)
        requires { HasRoomForBytes self.old 1 }
        ensures { Prepends self.old self.new (byte ∷ []) 1 }
    {
        self.from -= 1;
        self.bytes[self.from] = byte;
    }

    /// Writes a number in decimal in front.
    #[inline(always)]
    pub fn prepend_number(&mut self, number: u64)
        requires { HasRoomForBytes self.old 20 }
        ensures { Prepends self.old self.new (number_text number) 20 }
    {
        self.from = write_digits(number, &mut self.bytes, self.from);
    }

    /// Writes a byte in front, and after this byte a number in decimal.
    #[inline(always)]
    pub fn prepend_marked(&mut self, mark: u8, number: u64)
        requires { HasRoomForBytes self.old 21 }
        ensures { Prepends self.old self.new (mark ∷ number_text number) 21 }
    {
        self.prepend_number(number);
        self.prepend_byte(mark)
    }

    /// Writes a number of up to 128 bits in front.
    #[inline(always)]
    pub fn prepend_wide(&mut self, number: u128)
        requires { HasRoomForBytes self.old 39 }
        ensures { Prepends self.old self.new (number_text number) 39 }
    {
        if number <= u64::MAX as u128 {
            self.prepend_number(number as u64)
        } else {
            self.prepend_widest(number)
        }
    }

    /// Writes a number in front that needs more than 64 bits.
    #[cold]
    #[inline(never)]
    fn prepend_widest(&mut self, number: u128)
        requires { HasRoomForBytes self.old 39 }
        ensures { Prepends self.old self.new (number_text number) 39 }
    {
        self.prepend(Buffer::new().format(number).as_bytes())
    }
}
