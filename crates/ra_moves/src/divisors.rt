ghost use Rattle.std.specs.Prelude.{◌≡◌, ◌+◌, ◌*◌, ◌%◌, ◌<◌, ◌≤◌};
ghost use Rattle.ra_moves.specs.Dividing.{IsInverse};

/// A number of which remainders are taken. It keeps its inverse, so that a remainder takes two products: a division of
/// 64 bits takes ten times as long.
#[derive(Clone, Copy)]
pub struct Divisor {
    /// The number.
    pub number: u32,
    /// How often it goes into 2^64 - 1.
    inverse: u64,
    pub ghost inverse_is: { IsInverse number inverse },
}

impl Divisor {
    /// The divisor of this number.
    pub fn of(number: u32) -> Divisor
        requires { 1 ≤ number }
        ensures { result.number ≡ number }
    {
        Divisor {
            number,
            inverse: u64::MAX / u64::from(number),
        }
    }

    /// The remainder of a word.
    #[inline(always)]
    pub fn rest(&self, word: u64) -> u32
        ensures value { result ≡ word % self.now.number }
        ensures below { result < self.now.number }
    {
        let number = u64::from(self.number);
        let rest = word - self.quotient(word) * number;
        let least = if rest < number { rest } else { rest - number };
        least as u32
    }

    /// How often the number goes into a word, or one less.
    #[inline(always)]
    fn quotient(&self, word: u64) -> u64
        ensures low { result * self.now.number ≤ word }
        ensures high { word < result * self.now.number + 2 * self.now.number }
    {
        ((u128::from(word) * u128::from(self.inverse)) >> 64) as u64
    }
}

/// What the words of a proposal are divided by: the number of processes and that of machines.
#[derive(Clone, Copy)]
pub struct Divisors {
    /// The number of processes.
    pub processes: Divisor,
    /// The number of machines.
    pub machines: Divisor,
}

impl Divisors {
    /// The divisors of these numbers.
    pub fn of(processes: u32, machines: u32) -> Divisors
        requires processes { 1 ≤ processes }
        requires machines { 1 ≤ machines }
        ensures processes { result.processes.number ≡ processes }
        ensures machines { result.machines.number ≡ machines }
    {
        Divisors {
            processes: Divisor::of(processes),
            machines: Divisor::of(machines),
        }
    }
}
