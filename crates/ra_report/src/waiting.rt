ghost use Rattle.std.specs.Prelude.{◌≡◌, true, false, [], ◌++◌};

use std::marker::Model;

/// How many bytes wait at most.
const ROOM: usize = 16_384;

/// Bytes that wait, which are freed without a pass over them. Contracts see the list of them.
#[derive(Drop)]
pub struct Waiting {
    bytes: [u8; ROOM],
    count: usize,
}

impl Model for Waiting {
    ghost use Rattle.std.specs.Prelude.{ℕ, ◌≤◌, List, take};

    ghost Value = { List ℕ };

    ghost view = { λ w. take w.count w.bytes };

    ghost invariant = { λ w. w.count ≤ 16384 };
}

impl Waiting {
    /// Nothing waits.
    pub fn new() -> Waiting
        ensures { result ≡ [] }
    {
        Waiting {
            bytes: [0; ROOM],
            count: 0,
        }
    }

    /// What waits.
    #[inline(always)]
    pub fn as_slice(&self) -> &[u8]
        ensures { result.now ≡ self.now }
    {
        &self.bytes[..self.count]
    }

    /// Adds a piece if it fits, and says whether it does.
    #[inline(always)]
    pub fn add(&mut self, piece: &[u8]) -> bool
        ensures added { result ≡ true → self.new ≡ self.old ++ piece.now }
        ensures full { result ≡ false → self.new ≡ self.old }
    {
        let from = self.count;
        if piece.len() > ROOM - from {
            return false;
        }
        let to = from + piece.len();
        self.bytes[from..to].copy_from_slice(piece);
        self.count = to;
        true
    }

    /// Drops what waits.
    pub fn clear(&mut self)
        ensures { self.new ≡ [] }
    {
        self.count = 0;
    }
}
