ghost use Rattle.std.specs.Prelude.{◌≡◌, ℕ, ◌+◌, ◌*◌, ◌^◌, ◌<◌, ◌≤◌, List, ◌∷◌, ◌++◌, length, drop, Some, None, IfSome, nat_lt, if◌then◌else◌};
ghost use Rattle.ra_journal.specs.declared.entries.Entry.{Entry};
ghost use Rattle.ra_report.specs.declared.lengths.TheConstants.{LONGEST_FRONT};
ghost use Rattle.ra_report.specs.Texts.{number_text};
ghost use Rattle.ra_report.specs.Numbers.{told, past};
ghost use Rattle.ra_report.specs.JournalTexts.{entry_line};
ghost use Rattle.ra_report.specs.Fronts.{IsSmallEntry, IsSmallFront, FindsRest, front_of, four_numbers};

/// What a line of an entry says of who made it and when.
#[derive(Clone, Copy, Debug, PartialEq, Eq)]
pub struct Front {
    /// The worker.
    pub worker: u32,
    /// How many entries of the journal the worker had taken in.
    pub q: u64,
}

/// The worker of an entry and how many entries it had taken in, read from the entry's line or from at least its first
/// `LONGEST_FRONT` bytes. For other bytes the answer means nothing.
pub fn read_front(line: &[u8]) -> Option<Front>
    ensures whole { (j : ℕ) (e : Entry) → IsSmallEntry e → line.now ≡ entry_line j e
        → result ≡ Some (front_of e) }
    ensures cut { (j : ℕ) (e : Entry) (rest : List ℕ) → IsSmallFront j e
        → LONGEST_FRONT ≤ length line.now → line.now ++ rest ≡ entry_line j e
        → result ≡ Some (front_of e) }
{
    read_numbers(line)
}

/// The second and the fourth of four numbers.
fn read_numbers(line: &[u8]) -> Option<Front>
    ensures { (j w k q : ℕ) (rest : List ℕ) → w < 2 ^ 32 → q < 2 ^ 64
        → line.now ≡ four_numbers j w k q rest
        → result ≡ Some (record { worker = w; q = q }) }
{
    let worker_at = behind_number(line, 0)?;
    let k_at = behind_number(line, worker_at)?;
    let q_at = behind_number(line, k_at)?;
    let worker = number_at(&line[worker_at..])?;
    let q = number_at(&line[q_at..])?;
    if worker > u32::MAX as u64 {
        return None;
    }
    Some(Front {
        worker: worker as u32,
        q,
    })
}

/// The place after the digits from a place on, and after one byte more.
fn behind_number(bytes: &[u8], from: usize) -> Option<usize>
    requires { from ≤ length bytes.now }
    ensures behind { (n : ℕ) (rest : List ℕ) → drop from bytes.now ≡ number_text n ++ 32 ∷ rest
        → FindsRest bytes.now rest result }
    ensures within { IfSome result (λ at. at ≤ length bytes.now) }
{
    let end = from + digits_length(&bytes[from..]);
    if end < bytes.len() {
        Some(end + 1)
    } else {
        None
    }
}

/// How many digits there are in front.
fn digits_length(bytes: &[u8]) -> usize
    ensures past { drop result bytes.now ≡ past bytes.now }
    ensures within { result ≤ length bytes.now }
{
    for i in 0..bytes.len() {
        if !bytes[i].is_ascii_digit() {
            return i;
        }
    }
    bytes.len()
}

/// The number that the digits in front are worth, if it is below 2 ^ 64.
fn number_at(bytes: &[u8]) -> Option<u64>
    ensures { told 0 bytes.now < 2 ^ 64 → result ≡ Some (told 0 bytes.now) }
{
    let mut value: u64 = 0;
    for i in 0..bytes.len() {
        if !bytes[i].is_ascii_digit() {
            return Some(value);
        }
        value = one_more(value, (bytes[i] - b'0') as u64)?;
    }
    Some(value)
}

/// A number with one digit more, if it is below 2 ^ 64.
fn one_more(value: u64, digit: u64) -> Option<u64>
    requires { digit ≤ 9 }
    ensures { result ≡ (if nat_lt (10 * value + digit) (2 ^ 64) then Some (10 * value + digit)
        else None) }
{
    value.checked_mul(10)?.checked_add(digit)
}
