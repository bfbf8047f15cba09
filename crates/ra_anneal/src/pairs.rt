ghost use Rattle.std.specs.Prelude.{◌≡◌, true};
ghost use Rattle.ra_anneal.specs.Words.{after_colon, before_colon, is_pair, is_run};
ghost use Rattle.ra_words.specs.Numbers.{decimal_worth};

use ra_words::{first_place, is_number, number, text_from};

/// How many tries all workers may make together.
const MOST_TRIES: u64 = 1_000_000_000_000;

/// The text before its first colon, and the whole text if it has none.
#[tactic(auto, unfolding(crate::specs::Words::before_colon))]
fn before_colon(text: &[u8]) -> &[u8]
    ensures { result.now ≡ before_colon text.now }
{
    &text[..first_place(text, b':')]
}

/// The text after its first colon, and the empty text if it has none.
#[tactic(auto, unfolding(crate::specs::Words::after_colon))]
fn after_colon(text: &[u8]) -> &[u8]
    ensures { result.now ≡ after_colon text.now }
{
    let colon = first_place(text, b':');
    if colon < text.len() {
        text_from(text, colon + 1)
    } else {
        &[]
    }
}

/// Whether a text is two numbers with a colon between.
#[tactic(auto, unfolding(crate::specs::Words::is_pair))]
pub(crate) fn is_pair(text: &[u8]) -> bool
    ensures { result ≡ is_pair text.now }
{
    is_number(before_colon(text)) && is_number(after_colon(text))
}

/// Whether a text is SEED:TRIES, with at most 10^12 tries.
#[tactic(auto, unfolding(crate::specs::Words::is_run, crate::specs::Words::is_pair))]
pub(crate) fn is_run(text: &[u8]) -> bool
    ensures { result ≡ is_run text.now }
{
    is_pair(text) && second(text) <= MOST_TRIES
}

/// The number before the colon of a pair.
#[tactic(auto, unfolding(crate::specs::Words::is_pair))]
pub(crate) fn first(text: &[u8]) -> u64
    requires { is_pair text.now ≡ true }
    ensures { result ≡ decimal_worth (before_colon text.now) }
{
    number(before_colon(text))
}

/// The number after the colon of a pair.
#[tactic(auto, unfolding(crate::specs::Words::is_pair))]
pub(crate) fn second(text: &[u8]) -> u64
    requires { is_pair text.now ≡ true }
    ensures { result ≡ decimal_worth (after_colon text.now) }
{
    number(after_colon(text))
}
