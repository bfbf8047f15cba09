use ra_base::NoMemory;
use ra_token::ReadFault;

/// Why a report was not accepted.
#[derive(Clone, Copy, Debug, PartialEq, Eq)]
pub enum VerifyFault {
    /// A fetch of the report failed, and the count of its faults rose.
    ReadFault,
    /// This is the wrong line, counted from 1.
    Wrong { line: u64 },
    /// There is too little memory for the run.
    NoMemory,
}

impl From<ReadFault> for VerifyFault {
    ghost use Rattle.std.specs.Prelude.{◌≡◌};
    ghost use Rattle.ra_verify.specs.declared.faults.VerifyFault.TheVariants as fault;

    ghost from_gives = { λ _ e. e ≡ fault.ReadFault };

    fn from(_: ReadFault) -> VerifyFault {
        VerifyFault::ReadFault
    }
}

impl From<NoMemory> for VerifyFault {
    ghost use Rattle.std.specs.Prelude.{◌≡◌};
    ghost use Rattle.ra_verify.specs.declared.faults.VerifyFault.TheVariants as fault;

    ghost from_gives = { λ _ e. e ≡ fault.NoMemory };

    fn from(_: NoMemory) -> VerifyFault {
        VerifyFault::NoMemory
    }
}
