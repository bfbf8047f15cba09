ghost use Rattle.std.specs.Prelude.{◌≡◌, ◌≤◌, true, length};
ghost use Rattle.std.specs.Str.{all_ascii_digits};
ghost use Rattle.ra_words.specs.Numbers.{has_digits, decimal_worth, is_number};

/// Whether a text is 1 to 20 digits, worth less than 2^64.
#[tactic(auto, unfolding(crate::specs::Numbers::is_number))]
pub fn is_number(text: &[u8]) -> bool
    ensures { result ≡ is_number text.now }
{
    has_digits(text) && worth(text) <= u64::MAX as u128
}

/// What a number is worth.
#[tactic(auto, unfolding(crate::specs::Numbers::is_number))]
pub fn number(text: &[u8]) -> u64
    requires { is_number text.now ≡ true }
    ensures { result ≡ decimal_worth text.now }
{
    worth(text) as u64
}

/// Whether a text is 1 to 20 digits.
#[tactic(auto, unfolding(crate::specs::Numbers::has_digits))]
fn has_digits(text: &[u8]) -> bool
    ensures { result ≡ has_digits text.now }
{
    text.len() > 0 && text.len() <= 20 && all_digits(text)
}

/// Whether each byte is a digit.
fn all_digits(text: &[u8]) -> bool
    ensures { result ≡ all_ascii_digits text.now }
{
    for byte in text {
        if !byte.is_ascii_digit() {
            return false;
        }
    }
    true
}

/// What 1 to 20 digits are worth.
fn worth(text: &[u8]) -> u128
    requires { has_digits text.now ≡ true }
    ensures { result ≡ decimal_worth text.now }
{
    let mut value: u128 = 0;
    for byte in text {
        value = value * 10 + (*byte - b'0') as u128;
    }
    value
}
