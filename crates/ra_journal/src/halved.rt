ghost use Rattle.std.specs.Prelude.{◌≡◌};

use std::marker::Model;

/// A number below 2^64 in two halves, so that it needs an alignment of four bytes only. Contracts see the number.
#[derive(Clone, Copy)]
pub(crate) struct Halved {
    low: u32,
    high: u32,
}

impl Model for Halved {
    ghost use Rattle.std.specs.Prelude.{ℕ, ◌+◌, ◌*◌, ◌^◌, ◌<◌, ◌/◌, ◌%◌};
    ghost use Rattle.std.proofs.Common.{ap₂};
    ghost use Rattle.std.proofs.lemmas.Nat.{mod_low, shr_high};

    ghost Value = { ℕ };

    ghost view = { λ h. h.high * 2 ^ 32 + h.low };

    ghost invariant = { λ h. h.low < 2 ^ 32 };

    ghost inverse = { λ n. record { low = n % 2 ^ 32; high = n / 2 ^ 32 } };

    ghost inverse_ok = { λ h below. ap₂ (λ (low high : ℕ). record { low = low; high = high })
        (mod_low h.high 32 h.low below) (shr_high h.high 32 h.low below) };
}

impl Halved {
    /// A number in two halves.
    pub(crate) fn of(number: u64) -> Halved
        ensures { result ≡ number }
    {
        Halved {
            low: (number % 4294967296) as u32,
            high: (number / 4294967296) as u32,
        }
    }

    /// The number.
    #[inline(always)]
    pub(crate) fn number(&self) -> u64
        ensures { result ≡ self.now }
    {
        u64::from(self.high) * 4294967296 + u64::from(self.low)
    }
}

/// A number below 2^128 in four quarters, so that it needs an alignment of four bytes only. Contracts see the number.
#[derive(Clone, Copy)]
pub(crate) struct Quartered {
    low: Halved,
    high: Halved,
}

impl Model for Quartered {
    ghost use Rattle.std.specs.Prelude.{ℕ, ◌+◌, ◌*◌, ◌^◌, ◌<◌, ◌/◌, ◌%◌};
    ghost use Rattle.std.proofs.Common.{ap₂};
    ghost use Rattle.std.proofs.lemmas.Nat.{mod_low, shr_high};

    ghost Value = { ℕ };

    ghost view = { λ q. q.high * 2 ^ 64 + q.low };

    ghost invariant = { λ q. q.low < 2 ^ 64 };

    ghost inverse = { λ n. record { low = n % 2 ^ 64; high = n / 2 ^ 64 } };

    ghost inverse_ok = { λ q below. ap₂ (λ (low high : ℕ). record { low = low; high = high })
        (mod_low q.high 64 q.low below) (shr_high q.high 64 q.low below) };
}

impl Quartered {
    /// A number in four quarters.
    pub(crate) fn of(number: u128) -> Quartered
        ensures { result ≡ number }
    {
        Quartered {
            low: Halved::of((number % 18446744073709551616) as u64),
            high: Halved::of((number / 18446744073709551616) as u64),
        }
    }

    /// The number.
    #[inline(always)]
    pub(crate) fn number(&self) -> u128
        ensures { result ≡ self.now }
    {
        u128::from(self.high.number()) * 18446744073709551616 + u128::from(self.low.number())
    }
}
