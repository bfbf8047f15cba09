ghost use Rattle.std.specs.Prelude.{◌≡◌, ℕ, ◌^◌, ◌<◌, ◌≤◌, ◌↔◌, ◌⊎◌, List, length, take, drop, Option, IfSome, IfOk, OnErr};
ghost use Rattle.std.specs.Io.KnownBytes.{Appends, Keeps};
ghost use Rattle.ra_io.specs.Faults.{Rose};

use std::marker::Sync;

/// A call to the outside failed, and a count of faults rose.
#[derive(Clone, Copy, Debug, PartialEq, Eq)]
pub struct Failed;

/// Files that are read in pieces, by name.
pub trait Files {
    /// The bytes of a name, if they are told.
    ghost held: { Self → List ℕ → Option (List ℕ) };

    /// How often reading a name failed. An implementation may keep one count for all names.
    ghost faults: { Self → List ℕ → ℕ };

    /// Reads from place `at` of a file on into the front of `into`, and gives the number of bytes,
    /// which is 0 only at the end of the file or if `into` is empty.
    fn fetch(&mut self, name: &str, at: u64, into: &mut [u8]) -> Result<usize, Failed>
        requires { at < 2 ^ 62 }
        ensures bound { IfOk result (λ n. n ≤ length into.new) }

        // What holds if the bytes are told.
        ensures bytes { IfSome (held self.old name.now)
            (λ bytes. IfOk result (λ n. take n into.new ≡ take n (drop at bytes))) }
        ensures end { IfSome (held self.old name.now)
            (λ bytes. IfOk result (λ n. (n ≡ 0) ↔ ((length into.new ≡ 0) ⊎ (length bytes ≤ at)))) }
        ensures kept { (other : List ℕ) → held self.new other ≡ held self.old other }

        // A failure is counted, and no count falls.
        ensures failed { OnErr result (Rose (faults self.old name.now) (faults self.new name.now)) }
        ensures never_fall { (other : List ℕ) → faults self.old other ≤ faults self.new other };

    ghost counted: { (s : Self) (name : List ℕ) → faults s name < 2 ^ 64 };
}

/// A receiver of bytes in pieces.
pub trait Sink {
    /// The bytes that were taken so far, if they are told.
    ghost taken: { Self → Option (List ℕ) };

    /// How often taking failed.
    ghost faults: { Self → ℕ };

    /// Takes the front of a piece, and gives the number of bytes taken, which is at least 1.
    fn put(&mut self, piece: &[u8]) -> Result<usize, Failed>
        requires { 0 < length piece.now }
        ensures some { IfOk result (λ n. 0 < n) }
        ensures bound { IfOk result (λ n. n ≤ length piece.now) }
        ensures grows { IfOk result (λ n.
            Appends (taken self.old) (taken self.new) (take n piece.now)) }

        // A failure is counted and takes no bytes, and the count never falls.
        ensures failed { OnErr result (Rose (faults self.old) (faults self.new)) }
        ensures unchanged { OnErr result (Keeps (taken self.old) (taken self.new)) }
        ensures never_falls { faults self.old ≤ faults self.new };

    ghost counted: { (s : Self) → faults s < 2 ^ 64 };
}

/// The gate that a worker passes between making a plan and committing it.
pub trait Gate: Sync {
    /// Returns as soon as worker `worker` may commit its proposal `k`.
    fn before_commit(&self, worker: u32, k: u64);
}

/// A gate that is always open.
#[derive(Clone, Copy, Debug, PartialEq, Eq)]
pub struct NoGate;

impl Gate for NoGate {
    fn before_commit(&self, _worker: u32, _k: u64) {}
}
