//! The numbers of a file, token after token and many at once.
ghost use Rattle.std.specs.Prelude.{◌<◌};
ghost use Rattle.ra_token.specs.Reads.{Reads};

use super::files::failing;
use super::found::same;
use ra_base::Fixed;
use ra_io::{Files, MemoryFiles};
use ra_token::{Token, TokenFault, Tokens};
use std::alloc::Global;
use std::process::Abort;

/// What a reader answers.
type Answer = Result<Option<Token>, TokenFault>;

fn token(value: u32, at: u64) -> Answer {
    Ok(Some(Token { value, at }))
}

/// A reader of a file that has these bytes, gives at most `each` at once and fails at these fetches.
fn open(
    rt: &impl Abort,
    alloc: Global,
    each: usize,
    fails: &[u64],
    bytes: &[u8],
) -> (MemoryFiles, Tokens)
    requires some { 0 < each }
    ensures reads { Reads (⟦<MemoryFiles as Files>⟧.held result.0 result.1.name) result.1 }
{
    let files = failing(alloc, each, fails, "numbers", bytes).expect(rt, "no memory");
    let tokens = Tokens::make(alloc, "numbers").expect(rt, "no memory");
    (files, tokens)
}

/// Demands these answers of a reader, one after another.
fn demand<F: Files>(rt: &impl Abort, files: &mut F, tokens: &mut Tokens, wants: &[Answer])
    requires reads { Reads (F.held files.old tokens.old.name) tokens.old }
{
    for want in wants {
        same(rt, tokens.next(files), *want);
    }
}

/// Demands these answers of a file that has these bytes, gives at most `each` at once and fails at these fetches.
fn answers(
    rt: &impl Abort,
    alloc: Global,
    each: usize,
    fails: &[u64],
    bytes: &[u8],
    wants: &[Answer],
)
    requires some { 0 < each }
{
    let (mut files, mut tokens) = open(rt, alloc, each, fails, bytes);
    demand(rt, &mut files, &mut tokens, wants);
}

#[test]
fn tokens_come_in_order_with_their_places(rt: HostRuntime) {
    answers(
        &rt,
        rt.alloc(),
        1,
        &[],
        b" 12\t007\r\n4294967295 0",
        &[
            token(12, 1),
            token(7, 4),
            token(4_294_967_295, 9),
            token(0, 20),
            Ok(None),
            Ok(None),
        ],
    );
}

#[test]
fn a_bad_byte_comes_after_the_run_before_it_and_stays(rt: HostRuntime) {
    let bad = Err(TokenFault::BadByte { at: 2, byte: b'x' });
    answers(&rt, rt.alloc(), 2, &[], b"12x 3", &[token(12, 0), bad, bad]);
}

#[test]
fn blanks_are_space_tab_cr_and_lf(rt: HostRuntime) {
    answers(&rt, rt.alloc(), 7, &[], b"\t \r\n", &[Ok(None)]);
    let bad = Err(TokenFault::BadByte { at: 1, byte: 11 });
    answers(&rt, rt.alloc(), 7, &[], b" \x0b1", &[bad]);
}

#[test]
fn a_number_past_the_largest_is_told_at_its_first_digit(rt: HostRuntime) {
    let large = Err(TokenFault::TooLarge { at: 2 });
    answers(
        &rt,
        rt.alloc(),
        3,
        &[],
        b"1 00004294967296",
        &[token(1, 0), large, large],
    );
}

#[test]
fn a_failed_fetch_is_tried_again(rt: HostRuntime) {
    let failed = Err(TokenFault::ReadFault);
    answers(
        &rt,
        rt.alloc(),
        1,
        &[1, 7],
        b"12 3",
        &[failed, token(12, 0), token(3, 3), failed, Ok(None)],
    );
}

/// A number that is cut where the buffer ends, and after it one that exceeds the largest value.
fn cut_by_the_buffer(rt: &impl Abort, alloc: Global, each: usize)
    requires some { 0 < each }
{
    let mut bytes = vec![in alloc; b' '; 65_534].expect(rt, "no memory");
    bytes
        .extend_from_slice(b"12345 4294967296")
        .expect(rt, "no memory");
    let large = Err(TokenFault::TooLarge { at: 65_540 });
    answers(
        rt,
        alloc,
        each,
        &[],
        &bytes,
        &[token(12_345, 65_534), large],
    );
}

#[test]
fn a_number_may_be_cut_by_the_buffer(rt: HostRuntime) {
    cut_by_the_buffer(&rt, rt.alloc(), 1);
    cut_by_the_buffer(&rt, rt.alloc(), 7);
    cut_by_the_buffer(&rt, rt.alloc(), 65_535);
    cut_by_the_buffer(&rt, rt.alloc(), 65_536);
}

/// Demands, for each row, what `next_values` of a reader answers for that many values, and the values that the list has
/// then.
fn demand_values<F: Files>(
    rt: &impl Abort,
    files: &mut F,
    tokens: &mut Tokens,
    values: &mut Fixed<u32>,
    wants: &[(usize, Result<usize, TokenFault>, &[u32])],
)
    requires reads { Reads (F.held files.old tokens.old.name) tokens.old }
    ensures reads { Reads (F.held files.new tokens.new.name) tokens.new }
{
    for want in wants {
        assert!(rt; values.room() - values.len() >= want.0);
        same(rt, tokens.next_values(files, want.0, values), want.1);
        same(rt, values.as_slice(), want.2);
    }
}

/// The first numbers of a text with a fault after its numbers.
const FIRST: &[(usize, Result<usize, TokenFault>, &[u32])] = &[(
    3,
    Ok(3),
    &[5, 7, 40, 123_456_789],
)];

/// The numbers after the next one, up to the fault.
const LATER: &[(usize, Result<usize, TokenFault>, &[u32])] = &[
    (0, Ok(0), &[5, 7, 40, 123_456_789]),
    (
        8,
        Err(TokenFault::BadByte { at: 52, byte: b'x' }),
        &[5, 7, 40, 123_456_789, 99_999_999, 4_294_967_295, 1],
    ),
    (
        5,
        Err(TokenFault::BadByte { at: 52, byte: b'x' }),
        &[5, 7, 40, 123_456_789, 99_999_999, 4_294_967_295, 1],
    ),
];

/// What `next_values` answers for that text, however it is fetched.
fn values_until_a_fault(rt: &impl Abort, alloc: Global, each: usize)
    requires some { 0 < each }
{
    let text = b"7 40\r\n 123456789 0 99999999  4294967295 00000000001 x ";
    let (mut files, mut tokens) = open(rt, alloc, each, &[], text);
    let mut values = Fixed::make(alloc, 20).expect(rt, "no memory");
    values.push(5);
    demand_values(rt, &mut files, &mut tokens, &mut values, FIRST);
    same(rt, tokens.next(&mut files), token(0, 17));
    demand_values(rt, &mut files, &mut tokens, &mut values, LATER);
}

#[test]
fn values_come_up_to_a_fault(rt: HostRuntime) {
    values_until_a_fault(&rt, rt.alloc(), 1);
    values_until_a_fault(&rt, rt.alloc(), 9);
    values_until_a_fault(&rt, rt.alloc(), 100);
}

/// The numbers of a file whose second fetch fails, up to its end.
const LAST: &[(usize, Result<usize, TokenFault>, &[u32])] = &[
    (4, Err(TokenFault::ReadFault), &[1, 2]),
    (2, Ok(1), &[1, 2, 3]),
];

#[test]
fn values_end_where_the_file_ends(rt: HostRuntime) {
    let (mut files, mut tokens) = open(&rt, rt.alloc(), 100, &[1], b"1 2 3");
    let mut values = Fixed::make(rt.alloc(), 6).expect(&rt, "no memory");
    demand_values(&rt, &mut files, &mut tokens, &mut values, LAST);
}
