ghost use Rattle.std.specs.Prelude.{◌+◌, ◌*◌, ◌≤◌, length, decimal};
ghost use Rattle.ra_model_text.specs.Lines.{line_text};
ghost use Rattle.ra_trial.specs.Lines.{AddsAtMost, spaced_number_text};

use itoa::Buffer;
use ra_base::Fixed;

/// Adds a line: these numbers with one space between two, and LF.
pub(crate) fn push_line(text: &mut Fixed<u8>, numbers: &[u32])
    requires { length text.old.items + (11 * length numbers.now + 1) ≤ text.old.room }
    ensures { AddsAtMost text.old text.new (line_text numbers.now) (11 * length numbers.now + 1) }
{
    for k in 0..numbers.len() {
        push_number(text, k, numbers[k]);
    }
    text.push(b'\n');
}

/// Adds number `k` of a line, and a space before it unless it is the first.
fn push_number(text: &mut Fixed<u8>, k: usize, number: u32)
    requires { length text.old.items + 11 ≤ text.old.room }
    ensures { AddsAtMost text.old text.new (spaced_number_text k number) 11 }
{
    if k > 0 {
        text.push(b' ');
    }
    push_digits(text, number);
}

/// Adds the digits of a number.
fn push_digits(text: &mut Fixed<u8>, number: u32)
    requires { length text.old.items + 10 ≤ text.old.room }
    ensures { AddsAtMost text.old text.new (decimal number) 10 }
{
    let mut buffer = Buffer::new();
    text.extend_from_slice(buffer.format(number).as_bytes());
}
