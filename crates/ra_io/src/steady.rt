ghost use Rattle.std.specs.Prelude.{◌≡◌, ℕ, ◌+◌, ◌-◌, ◌^◌, ◌<◌, List, [], Some, None, Ok, length, take, drop, min, IfOk, IsOk, OnOk, OnErr};
ghost use Rattle.std.proofs.Common.{lit<};
ghost use Rattle.ra_io.specs.Pieces.{Sets};
ghost use Rattle.ra_io.specs.SteadyFiles as files;

use crate::outside::{Failed, Files, Sink};
use crate::texts::{Texts, copy_piece, set_text, text_of};
use ra_base::NoMemory;
use std::alloc::Global;
use std::collections::BTreeMap;
use std::marker::Model;

/// Files in memory that never fail. A name that was not added has no bytes.
#[derive(Drop)]
pub struct SteadyFiles {
    texts: Texts,
}

impl SteadyFiles {
    /// Makes files without bytes.
    pub fn make(alloc: Global) -> Result<SteadyFiles, NoMemory>
        ensures { IfOk result (λ f. (name : List ℕ) → files.bytes f name ≡ []) }
    {
        Ok(SteadyFiles {
            texts: BTreeMap::new(alloc),
        })
    }

    /// Sets the bytes of a name.
    pub fn add(&mut self, alloc: Global, name: &str, bytes: &[u8]) -> Result<(), NoMemory>
        ensures set { OnOk result
            (Sets (λ n. Some (files.bytes self.old n)) (λ n.
            Some (files.bytes self.new n)) name.now bytes.now) }
        ensures unchanged { OnErr result ((other : List ℕ) →
            files.bytes self.new other ≡ files.bytes self.old other) }
    {
        set_text(&mut self.texts, alloc, name, bytes)
    }
}

impl Files for SteadyFiles {
    ghost held = { λ s name. Some (files.bytes s name) };

    ghost faults = { λ s name. 0 };

    ghost counted = { λ s name. lit< tt };

    fn fetch(&mut self, name: &str, at: u64, into: &mut [u8]) -> Result<usize, Failed>
        ensures succeeds { IsOk result }
        ensures number { IfOk result (λ n.
            n ≡ min (length into.new) (length (files.bytes self.old name.now) - at)) }
        ensures bytes { IfOk result (λ n. take n into.new ≡
            take n (drop at (files.bytes self.old name.now))) }
        ensures same { self.new ≡ self.old }
    {
        let bytes = text_of(&self.texts, name).unwrap_or(&[]);
        let most = into.len();
        Ok(copy_piece(bytes, at, most, into))
    }
}

/// A sink that takes every piece whole and keeps only the number of bytes.
#[derive(Drop)]
pub struct CountSink {
    count: u64,
}

impl Model for CountSink {
    ghost use Rattle.std.specs.Prelude.{ℕ};

    ghost Value = { ℕ };

    ghost view = { λ s. s.count };
}

impl CountSink {
    /// Makes a sink that has taken nothing yet.
    pub fn make() -> CountSink
        ensures { result ≡ 0 }
    {
        CountSink { count: 0 }
    }

    /// How many bytes were taken. The count stays at its greatest value once it reaches it.
    pub fn count(&self) -> u64
        ensures { result ≡ self.now }
    {
        self.count
    }
}

impl Sink for CountSink {
    ghost taken = { λ s. None };

    ghost faults = { λ s. 0 };

    ghost counted = { λ s. lit< tt };

    fn put(&mut self, piece: &[u8]) -> Result<usize, Failed>
        ensures whole { result ≡ Ok (length piece.now) }
        ensures count { self.new ≡ min (self.old + length piece.now) (2 ^ 64 - 1) }
    {
        self.count = self.count.saturating_add(piece.len() as u64);
        Ok(piece.len())
    }
}
