use std::alloc::{AllocError, Global};

/// A piece of a line: a bare word, or a text in quotes, which may be empty and may have spaces.
#[derive(Clone, Copy, Drop)]
pub(crate) struct Token<'t> {
    pub(crate) text: &'t str,
    pub(crate) quoted: bool,
}

/// The pieces of a line.
pub(crate) fn tokens<'t>(alloc: Global, line: &'t str) -> Result<Vec<Token<'t>>, AllocError> {
    let mut found = Vec::new(alloc);
    let mut quoted = false;
    for part in line.split('"') {
        if quoted {
            found.push(Token { text: part, quoted })?;
        } else {
            push_words(&mut found, part)?;
        }
        quoted = !quoted;
    }
    Ok(found)
}

/// Adds the bare words of a part of a line outside of quotes.
fn push_words<'t>(found: &mut Vec<Token<'t>>, part: &'t str) -> Result<(), AllocError> {
    for word in part.split(' ') {
        if !word.is_empty() {
            found.push(Token {
                text: word,
                quoted: false,
            })?;
        }
    }
    Ok(())
}

/// The pieces of a line of a case, with those of its row put in: `*` is replaced by all of them, `$1`, `$2` and `$3` by
/// one each. A piece that the row doesn't have is empty.
pub(crate) fn filled<'t>(
    alloc: Global,
    line: &'t str,
    row: &[Token<'t>],
) -> Result<Vec<Token<'t>>, AllocError> {
    let pieces = tokens(alloc, line)?;
    let all = fill(alloc, pieces.as_slice(), row);
    drop(pieces);
    all
}

/// The pieces of the line in `pieces`, with those of its row put in, as in `filled`.
fn fill<'t>(
    alloc: Global,
    pieces: &[Token<'t>],
    row: &[Token<'t>],
) -> Result<Vec<Token<'t>>, AllocError> {
    let mut all = Vec::new(alloc);
    for piece in pieces {
        match place(piece) {
            Some(there) => push_row(row, there, &mut all)?,
            None => all.push(*piece)?,
        }
    }
    Ok(all)
}

/// Which pieces of a row replace a piece of a line, if any do: 0 for all of them, else the place of one, counted from
/// 1.
fn place(piece: &Token<'_>) -> Option<usize> {
    if piece.quoted {
        return None;
    }
    match piece.text {
        "*" => Some(0),
        "$1" => Some(1),
        "$2" => Some(2),
        "$3" => Some(3),
        _ => None,
    }
}

/// Adds the pieces of a row at a place, and none if the row is shorter.
fn push_row<'t>(
    row: &[Token<'t>],
    place: usize,
    all: &mut Vec<Token<'t>>,
) -> Result<(), AllocError> {
    if place == 0 {
        return all.extend_from_slice(row);
    }
    if let Some(piece) = row.get(place - 1) {
        all.push(*piece)?;
    }
    Ok(())
}
