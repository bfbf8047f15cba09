//! Numbers of an edit, one or several.
ghost use Rattle.std.specs.Prelude.{◌≡◌, ◌+◌, ◌-◌, ◌<◌, ◌≤◌, length, IfOk, IfErr, OnOk};
ghost use Rattle.ra_token.specs.TokenList.{tokens, tokens_before};
ghost use Rattle.ra_token.specs.Moments.{moment, Stands, Went, Refuses, HasNext, HasFault};
ghost use Rattle.ra_edit_read.specs.EditTexts.{edits_fault, any_at, below_at, any_from};
ghost use Rattle.ra_edit_read.specs.Answers.{EditsSays};
ghost use Rattle.ra_edit_read.specs.Reading.{TakesNumber, TakesValues};

use crate::faults::EditsFault;
use ra_base::Fixed;
use ra_io::Files;
use ra_token::{Token, TokenFault, Tokens};

/// A number of edit `k` that may have any value.
pub(crate) fn any_number<F: Files>(
    files: &mut F,
    tokens: &mut Tokens,
    k: u64,
) -> Result<u32, EditsFault>
    requires stands { Stands (moment F.Files files.old tokens.old) }
    ensures gives { IfOk result (λ value.
        Went (λ bytes before after. TakesNumber bytes before after value)
        (moment F.Files files.old tokens.old) (moment F.Files files.new tokens.new)) }
    ensures refuses { IfErr result (λ fault. Refuses EditsFault.ReadFault (λ bytes before.
        EditsSays (any_at bytes k (tokens_before bytes before)) fault)
        (moment F.Files files.old tokens.old) (moment F.Files files.new tokens.new) fault) }
{
    let Some(token) = next_token(files, tokens)? else {
        return Err(EditsFault::Missing { edit: k });
    };
    Ok(token.value)
}

/// A number of edit `k` that has to be below a count.
pub(crate) fn number_below<F: Files>(
    files: &mut F,
    tokens: &mut Tokens,
    k: u64,
    count: u32,
) -> Result<u32, EditsFault>
    requires stands { Stands (moment F.Files files.old tokens.old) }
    requires some { 0 < count }
    ensures gives { IfOk result (λ value.
        Went (λ bytes before after. TakesNumber bytes before after value)
        (moment F.Files files.old tokens.old) (moment F.Files files.new tokens.new)) }
    ensures below { IfOk result (λ value. value < count) }
    ensures refuses { IfErr result (λ fault. Refuses EditsFault.ReadFault (λ bytes before.
        EditsSays (below_at bytes k count (tokens_before bytes before)) fault)
        (moment F.Files files.old tokens.old) (moment F.Files files.new tokens.new) fault) }
{
    let Some(token) = next_token(files, tokens)? else {
        return Err(EditsFault::Missing { edit: k });
    };
    if token.value >= count {
        return Err(EditsFault::Range {
            at: token.at,
            value: token.value,
            least: 0,
            most: count - 1,
        });
    }
    Ok(token.value)
}

/// Adds the next `count` numbers of edit `k` to a list.
pub(crate) fn take_numbers<F: Files>(
    files: &mut F,
    tokens: &mut Tokens,
    k: u64,
    count: usize,
    values: &mut Fixed<u32>,
) -> Result<(), EditsFault>
    requires stands { Stands (moment F.Files files.old tokens.old) }
    requires some { 0 < count }
    requires room { length values.old.items + count ≤ values.old.room }
    ensures gives { OnOk result (Went (λ bytes before after.
        TakesValues bytes before after count values.old.items values.new.items)
        (moment F.Files files.old tokens.old) (moment F.Files files.new tokens.new)) }
    ensures number { OnOk result (length values.new.items ≡ length values.old.items + count) }
    ensures room { values.new.room ≡ values.old.room }
    ensures refuses { IfErr result (λ fault. Refuses EditsFault.ReadFault (λ bytes before.
        EditsSays (any_from bytes k (tokens_before bytes before) count) fault)
        (moment F.Files files.old tokens.old) (moment F.Files files.new tokens.new) fault) }
{
    match tokens.next_values(files, count, values) {
        Ok(taken) => {
            if taken < count {
                return Err(EditsFault::Missing { edit: k });
            }
            Ok(())
        }
        Err(fault) => Err(fault_of(fault)),
    }
}

/// The next token, or none at the end of the file.
pub(crate) fn next_token<F: Files>(
    files: &mut F,
    tokens: &mut Tokens,
) -> Result<Option<Token>, EditsFault>
    requires stands { Stands (moment F.Files files.old tokens.old) }
    ensures gives { IfOk result (λ next.
        Went (λ bytes before after. HasNext bytes before after next)
        (moment F.Files files.old tokens.old) (moment F.Files files.new tokens.new)) }
    ensures refuses { IfErr result (λ fault. Refuses EditsFault.ReadFault (λ bytes before.
        HasFault edits_fault bytes before fault)
        (moment F.Files files.old tokens.old) (moment F.Files files.new tokens.new) fault) }
{
    match tokens.next(files) {
        Ok(next) => Ok(next),
        Err(fault) => Err(fault_of(fault)),
    }
}

/// The fault of a token, as a fault of edits.
#[tactic(auto, unfolding(crate::specs::EditTexts::edits_fault))]
fn fault_of(fault: TokenFault) -> EditsFault
    ensures { result ≡ edits_fault fault }
{
    match fault {
        TokenFault::ReadFault => EditsFault::ReadFault,
        TokenFault::BadByte { at, byte } => EditsFault::BadByte { at, byte },
        TokenFault::TooLarge { at } => EditsFault::TooLarge { at },
        TokenFault::TooLong => EditsFault::TooLong,
        TokenFault::NoMemory => EditsFault::NoMemory,
    }
}
