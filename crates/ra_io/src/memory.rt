ghost use Rattle.std.specs.Prelude.{◌≡◌, ℕ, ◌-◌, ◌<◌, ◌||◌, nat_eq, List, [], ◌++◌, Some, None, length, take, drop, min, IfSome, IfOk, OnOk, OnErr};
ghost use Rattle.std.specs.Option.{is_none};
ghost use Rattle.std.specs.Result.{is_err, result_unwrap_or};
ghost use Rattle.ra_io.specs.Pieces.{Sets, piece_len, is_listed};

use crate::counts::Count;
use crate::outside::{Failed, Files, Sink};
use crate::texts::{Texts, copy_piece, set_text, text_of};
use ra_base::{Fixed, NoMemory};
use std::alloc::Global;
use std::collections::BTreeMap;

/// Files in memory that give few bytes at once, and fail if a test wants it.
#[derive(Drop)]
pub struct MemoryFiles {
    texts: Texts,
    each: usize,
    fails: Fixed<u64>,
    calls: Count,
    faults: Count,
    pub ghost some: { 0 < each },
}

impl MemoryFiles {
    ghost use Rattle.ra_io.specs.MemoryFiles as files;

    /// Files that give at most `each` bytes at once, and whose fetches with a number in `fails`,
    /// counted from 0, fail. No name is held yet.
    pub fn make(alloc: Global, each: usize, fails: Fixed<u64>) -> Result<MemoryFiles, NoMemory>
        requires { 0 < each }
        ensures empty { IfOk result (λ f. (name : List ℕ) → files.held f name ≡ None) }
        ensures each { IfOk result (λ f. files.each f ≡ each) }
        ensures fails { IfOk result (λ f. files.fails f ≡ fails.items) }
        ensures calls { IfOk result (λ f. files.calls f ≡ 0) }
        ensures faults { IfOk result (λ f. files.faults f ≡ 0) }
    {
        Ok(MemoryFiles {
            texts: BTreeMap::new(alloc),
            each,
            fails,
            calls: Count::make(),
            faults: Count::make(),
        })
    }

    /// Sets the bytes of a name.
    pub fn add(&mut self, alloc: Global, name: &str, bytes: &[u8]) -> Result<(), NoMemory>
        ensures set { OnOk result (Sets (files.held self.old)
            (files.held self.new) name.now bytes.now) }
        ensures unchanged { OnErr result ((other : List ℕ) →
            files.held self.new other ≡ files.held self.old other) }
        ensures each { files.each self.new ≡ files.each self.old }
        ensures fails { files.fails self.new ≡ files.fails self.old }
        ensures calls { files.calls self.new ≡ files.calls self.old }
        ensures faults { files.faults self.new ≡ files.faults self.old }
    {
        set_text(&mut self.texts, alloc, name, bytes)
    }
}

impl Files for MemoryFiles {
    ghost use Rattle.ra_io.specs.MemoryFiles as files;

    ghost held = { files.held };

    ghost faults = { λ s name. files.faults s };

    ghost counted = { λ s name. files.counted s };

    fn fetch(&mut self, name: &str, at: u64, into: &mut [u8]) -> Result<usize, Failed>
        // It fails exactly if its number is listed or no such name is held.
        ensures fails { is_err result ≡
            (is_listed (files.fails self.old) (files.calls self.old) || is_none
            (files.held self.old name.now)) }
        ensures number { IfSome (files.held self.old name.now)
            (λ bytes. IfOk result (λ n. n ≡
            piece_len (length into.new) (files.each self.old) at bytes)) }
        ensures bytes { IfSome (files.held self.old name.now)
            (λ bytes. IfOk result (λ n. take n into.new ≡ take n (drop at bytes))) }

        // It counts itself, and its failure, and nothing else changes.
        ensures counts { files.Counts self.old self.new (is_err result) }
    {
        let number = self.calls.value();
        self.calls.raise();
        if self.fails.as_slice().contains(&number) {
            self.faults.raise();
            return Err(Failed);
        }
        match text_of(&self.texts, name) {
            Some(bytes) => Ok(copy_piece(bytes, at, self.each, into)),
            None => {
                self.faults.raise();
                Err(Failed)
            }
        }
    }
}

/// A sink in memory with a limited room, which takes few bytes at once and fails if a test wants it.
#[derive(Drop)]
pub struct MemorySink {
    bytes: Fixed<u8>,
    each: usize,
    fails: Fixed<u64>,
    calls: Count,
    faults: Count,
    pub ghost some: { 0 < each },
}

impl MemorySink {
    ghost use Rattle.ra_io.specs.MemorySink as sink;

    /// A sink for `room` bytes that takes at most `each` at once, and whose puts with a number in
    /// `fails`, counted from 0, fail.
    pub fn make(
        alloc: Global,
        room: usize,
        each: usize,
        fails: Fixed<u64>,
    ) -> Result<MemorySink, NoMemory>
        requires { 0 < each }
        ensures empty { IfOk result (λ s. sink.bytes s ≡ []) }
        ensures room { IfOk result (λ s. sink.left s ≡ room) }
        ensures each { IfOk result (λ s. sink.each s ≡ each) }
        ensures fails { IfOk result (λ s. sink.fails s ≡ fails.items) }
        ensures calls { IfOk result (λ s. sink.calls s ≡ 0) }
        ensures faults { IfOk result (λ s. sink.faults s ≡ 0) }
    {
        let bytes = Fixed::make(alloc, room)?;
        Ok(MemorySink {
            bytes,
            each,
            fails,
            calls: Count::make(),
            faults: Count::make(),
        })
    }

    /// The bytes that were taken so far.
    pub fn bytes(&self) -> &[u8]
        ensures { result.now ≡ sink.bytes self.now }
    {
        self.bytes.as_slice()
    }
}

impl Sink for MemorySink {
    ghost use Rattle.ra_io.specs.MemorySink as sink;

    ghost taken = { λ s. Some (sink.bytes s) };

    ghost faults = { sink.faults };

    ghost counted = { sink.counted };

    fn put(&mut self, piece: &[u8]) -> Result<usize, Failed>
        // It fails exactly if its number is listed or no room is left.
        ensures fails { is_err result ≡
            (is_listed (sink.fails self.old) (sink.calls self.old) || nat_eq
            (sink.left self.old) 0) }
        ensures number { IfOk result (λ n. n ≡ min (min (length piece.now) (sink.each self.old))
            (sink.left self.old)) }
        ensures bytes { sink.bytes self.new ≡
            sink.bytes self.old ++ take (result_unwrap_or result 0) piece.now }
        ensures left { sink.left self.new ≡ sink.left self.old - result_unwrap_or result 0 }

        // It counts itself, and its failure; the sink's settings stay.
        ensures counts { sink.Counts self.old self.new (is_err result) }
    {
        let number = self.calls.value();
        self.calls.raise();
        let left = self.bytes.room() - self.bytes.len();
        if left == 0 || self.fails.as_slice().contains(&number) {
            self.faults.raise();
            return Err(Failed);
        }
        let taken = piece.len().min(self.each).min(left);
        self.bytes.extend_from_slice(&piece[..taken]);
        Ok(taken)
    }
}
