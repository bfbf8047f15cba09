ghost use Rattle.std.specs.Prelude.{◌<◌, ◌≤◌, length, IfOk};

use crate::tokens::{Token, filled};
use crate::trouble::Trouble;
use std::alloc::Global;

/// A shared text, with its name.
#[derive(Drop)]
pub(crate) struct Text<'t> {
    pub(crate) name: &'t str,
    pub(crate) bytes: Vec<u8>,
}

/// The text after a word of a line: the pieces of the rest of the line, then the lines that follow it and begin with
/// four spaces, each with a line feed.
pub(crate) fn text_of(
    alloc: Global,
    texts: &[Text<'_>],
    rest: &str,
    below: &[&str],
    row: &[Token<'_>],
) -> Result<Vec<u8>, Trouble> {
    let mut bytes = Vec::new(alloc);
    let pieces = filled(alloc, rest, row)?;
    push_pieces(texts, pieces.as_slice(), &mut bytes)?;
    push_block(below, &mut bytes)?;
    Ok(bytes)
}

/// Adds the lines that begin with four spaces, up to the first that doesn't.
fn push_block(below: &[&str], bytes: &mut Vec<u8>) -> Result<(), Trouble> {
    for line in below {
        let Some(text) = line.strip_prefix("    ") else {
            break;
        };
        bytes.extend_from_slice(text.as_bytes())?;
        bytes.push(b'\n')?;
    }
    Ok(())
}

/// Adds the texts of pieces, one after another.
fn push_pieces(
    texts: &[Text<'_>],
    pieces: &[Token<'_>],
    bytes: &mut Vec<u8>,
) -> Result<(), Trouble> {
    let mut at = 0;
    while at < pieces.len() {
        at += push_piece(texts, &pieces[at..], bytes)?;
    }
    Ok(())
}

/// Adds the text at the head of pieces, and gives how many of them it is.
fn push_piece(
    texts: &[Text<'_>],
    pieces: &[Token<'_>],
    bytes: &mut Vec<u8>,
) -> Result<usize, Trouble>
    ensures some { IfOk result (λ n. 0 < n) }
    ensures bound { IfOk result (λ n. n ≤ length pieces.now) }
{
    let [first, ..] = pieces else {
        return Err(Trouble::Unclear);
    };
    let takes = if first.quoted { 1 } else { takes(first.text) };
    let count = if takes <= pieces.len() { takes } else { 1 };
    push_text(texts, &pieces[..count], bytes)?;
    Ok(count)
}

/// How many pieces make up a text that begins with this word: the word with those that it takes, if it makes a text,
/// and else one, the name of a shared text.
fn takes(word: &str) -> usize
    ensures { 0 < result }
{
    match word {
        "byte" | "blanks" => 2,
        "front" => 3,
        "swap" => 4,
        _ => 1,
    }
}

/// Adds the text that these pieces make.
fn push_text(texts: &[Text<'_>], pieces: &[Token<'_>], bytes: &mut Vec<u8>) -> Result<(), Trouble> {
    match pieces {
        [first] => push_one(texts, first, bytes),
        [first, number] if first.text == "byte" => push_byte(number.text, bytes),
        [_, number] => push_blanks(number.text, bytes),
        [_, number, name] => push_front(shared_text(texts, name.text)?, number.text, bytes),
        [_, old, new, name] => {
            push_swapped(shared_text(texts, name.text)?, old.text, new.text, bytes)
        }
        _ => Err(Trouble::Unclear),
    }
}

/// Adds a text in quotes, or the shared text of a name.
fn push_one(texts: &[Text<'_>], piece: &Token<'_>, bytes: &mut Vec<u8>) -> Result<(), Trouble> {
    let text = if piece.quoted {
        piece.text.as_bytes()
    } else {
        shared_text(texts, piece.text)?
    };
    bytes.extend_from_slice(text)?;
    Ok(())
}

/// Adds the byte of this number.
fn push_byte(number: &str, bytes: &mut Vec<u8>) -> Result<(), Trouble> {
    let Ok(byte) = number.parse::<u8>() else {
        return Err(Trouble::Unclear);
    };
    bytes.push(byte)?;
    Ok(())
}

/// Adds the first bytes of a text, `number` of them.
fn push_front(text: &[u8], number: &str, bytes: &mut Vec<u8>) -> Result<(), Trouble> {
    let Ok(length) = number.parse::<usize>() else {
        return Err(Trouble::Unclear);
    };
    bytes.extend_from_slice(text.get(..length).unwrap_or(text))?;
    Ok(())
}

/// Adds `number` spaces.
fn push_blanks(number: &str, bytes: &mut Vec<u8>) -> Result<(), Trouble> {
    let Ok(number) = number.parse::<u32>() else {
        return Err(Trouble::Unclear);
    };
    for _ in 0..number {
        bytes.push(b' ')?;
    }
    Ok(())
}

/// Adds a text with `new` in place of the first `old`.
fn push_swapped(text: &[u8], old: &str, new: &str, bytes: &mut Vec<u8>) -> Result<(), Trouble> {
    let mut rest = text;
    while let [first, after @ ..] = rest {
        if let Some(behind) = rest.strip_prefix(old.as_bytes()) {
            bytes.extend_from_slice(new.as_bytes())?;
            bytes.extend_from_slice(behind)?;
            return Ok(());
        }
        bytes.push(*first)?;
        rest = after;
    }
    Err(Trouble::Unclear)
}

/// The shared text of a name.
fn shared_text<'b>(texts: &'b [Text<'_>], name: &str) -> Result<&'b [u8], Trouble> {
    for text in texts {
        if text.name == name {
            return Ok(text.bytes.as_slice());
        }
    }
    Err(Trouble::Unclear)
}
