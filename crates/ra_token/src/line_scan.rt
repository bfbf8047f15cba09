ghost use Rattle.std.specs.Prelude.{◌≡◌, ◌<◌, ◌≤◌, ◌≢◌, true, false, length, take, get_or};
ghost use Rattle.ra_token.specs.Lines.{body_of, HasNoEnd, line_end_count};
ghost use Rattle.ra_token.specs.Buffers.{IsEnded};

/// How many bytes come before the first LF, or all if there is none.
pub fn body_length(bytes: &[u8]) -> usize
    ensures body { take result bytes.now ≡ body_of bytes.now }
    ensures within { result ≤ length bytes.now }
    ensures ended { result < length bytes.now → get_or bytes.now result 0 ≡ 10 }
{
    for i in 0..bytes.len() {
        if bytes[i] == b'\n' {
            return i;
        }
    }
    bytes.len()
}

/// Among at most `most` bytes, the number of bytes up to and with the first LF, or else of all that were looked at; and
/// whether there was an LF.
pub fn line_front(bytes: &[u8], most: usize) -> (usize, bool)
    ensures ended { result.1 ≡ true → IsEnded (take result.0 bytes.now) }
    ensures unended { result.1 ≡ false → HasNoEnd (take result.0 bytes.now) }
    ensures within { result.0 ≤ length bytes.now }
    ensures most { result.0 ≤ most }
    ensures some { 0 < most → 0 < length bytes.now → 0 < result.0 }
{
    let front = &bytes[..bytes.len().min(most)];
    let body = body_length(front);
    if body < front.len() {
        return (body + 1, true);
    }
    (body, false)
}

/// How many bytes at the front of two slices are equal.
pub fn same_length(a: &[u8], b: &[u8]) -> usize
    ensures same { take result a.now ≡ take result b.now }
    ensures within { result ≤ length a.now }
    ensures other { result ≤ length b.now }
    ensures differs { result < length a.now → result < length b.now →
        get_or a.now result 0 ≢ get_or b.now result 0 }
{
    let most = a.len().min(b.len());
    for i in 0..most {
        if a[i] != b[i] {
            return i;
        }
    }
    most
}

/// How many LF there are.
pub fn count_ends(bytes: &[u8]) -> usize
    ensures { result ≡ line_end_count bytes.now }
{
    let mut count = 0;
    for i in 0..bytes.len() {
        if bytes[i] == b'\n' {
            count += 1;
        }
    }
    count
}
