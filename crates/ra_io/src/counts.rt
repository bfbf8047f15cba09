ghost use Rattle.std.specs.Prelude.{◌≡◌, ◌^◌, ◌<◌, if◌then◌else◌};
ghost use Rattle.std.specs.Result.{is_err, result_ok};
ghost use Rattle.ra_io.specs.Faults.{raised};

use crate::outside::Failed;
use std::io;

/// A count that stays at its greatest value once it reaches it.
#[derive(Drop)]
pub struct Count {
    value: u64,
    pub ghost small: { value < 2 ^ 64 },
}

impl Count {
    ghost use Rattle.ra_io.specs.Counts.{number_of};

    /// The count 0.
    pub fn make() -> Count
        ensures { number_of result ≡ 0 }
    {
        Count { value: 0 }
    }

    /// The number.
    pub fn value(&self) -> u64
        ensures { result ≡ number_of self.now }
    {
        self.value
    }

    /// Counts one more, unless the count is at its greatest value.
    pub fn raise(&mut self)
        ensures { number_of self.new ≡ raised (number_of self.old) }
    {
        self.value = self.value.saturating_add(1);
    }

    /// The number that a system call gave, or a failure, which is counted.
    pub fn counted(&mut self, outcome: io::Result<usize>) -> Result<usize, Failed>
        ensures value { result_ok result ≡ result_ok outcome }
        ensures faults { number_of self.new ≡
            (if is_err result then raised (number_of self.old) else number_of self.old) }
    {
        match outcome {
            Ok(number) => Ok(number),
            Err(_) => {
                self.raise();
                Err(Failed)
            }
        }
    }
}
