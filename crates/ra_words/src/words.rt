ghost use Rattle.std.specs.Prelude.{◌≡◌, ◌+◌, ◌≤◌, length, map, drop, codes};
ghost use Rattle.std.specs.Str.{bytes_eq};
ghost use Rattle.ra_words.specs.Words.{texts, word_at, is_name, has_option, behind};

/// The word at a place, and the empty text after the last one.
#[tactic(auto, using(crate::proofs::WordLaws::word_read, crate::proofs::WordLaws::word_past), unfolding(crate::specs::Words::word_at))]
pub fn text_at(words: &[String], place: usize) -> &str
    ensures { result.now ≡ word_at (texts words.now) place }
{
    if place < words.len() {
        words[place].as_str()
    } else {
        ""
    }
}

/// The text at a place, and the empty text after the last one.
#[tactic(auto, using(crate::proofs::WordLaws::str_read, crate::proofs::WordLaws::str_past))]
pub(crate) fn str_at<'a>(words: &[&'a str], place: usize) -> &'a str
    ensures { result.now ≡ word_at (map (λ word. word.now) words.now) place }
{
    if place < words.len() {
        words[place]
    } else {
        ""
    }
}

/// Whether an option is at a place.
#[tactic(auto, unfolding(crate::specs::Words::has_option))]
pub fn has_option(words: &[String], place: usize, option: &str) -> bool
    ensures { result ≡ has_option option.now (texts words.now) place }
{
    text_at(words, place) == option
}

/// The place after an option and its value if the option is at a place, and else that place itself.
#[tactic(auto, unfolding(crate::specs::Words::behind))]
pub fn behind(words: &[String], place: usize, option: &str) -> usize
    requires { place ≤ 16 }
    ensures value { result ≡ behind option.now (texts words.now) place }
    ensures near { result ≤ place + 2 }
{
    if has_option(words, place, option) {
        place + 2
    } else {
        place
    }
}

/// Whether a word is a file name: it is not empty, and not an option.
pub fn names_file(word: &str) -> bool
    ensures { result ≡ is_name word.now }
{
    match word.as_bytes() {
        [] => false,
        [byte, ..] => *byte != b'-',
    }
}
