ghost use Rattle.std.specs.Prelude.{◌≡◌, ◌+◌, ◌^◌, ◌<◌, ◌≤◌, length, IfOk, IfErr, OnOk};
ghost use Rattle.ra_model_read.specs.Formats.{next_token, token_fault, any, field, flag, numbers, ends};
ghost use Rattle.ra_token.specs.Moments.{Stands};
ghost use Rattle.ra_model_read.specs.Reading.{seen, Gives, FormatRefuses};

use crate::faults::{Field, ModelFault};
use ra_base::Fixed;
use ra_io::Files;
use ra_token::{Token, TokenFault, Tokens};

/// The fault of a token, as a fault of a model.
#[tactic(auto, unfolding(crate::specs::Formats::token_fault))]
pub(crate) fn model_fault(fault: TokenFault) -> ModelFault
    ensures { result ≡ token_fault fault }
{
    match fault {
        TokenFault::ReadFault => ModelFault::ReadFault,
        TokenFault::BadByte { at, byte } => ModelFault::BadByte { at, byte },
        TokenFault::TooLarge { at } => ModelFault::TooLarge { at },
        TokenFault::TooLong => ModelFault::TooLong,
        TokenFault::NoMemory => ModelFault::NoMemory,
    }
}

/// The next token, which is the field `what` with number `item`.
#[inline]
pub(crate) fn read_token<F: Files>(
    files: &mut F,
    tokens: &mut Tokens,
    what: Field,
    item: u64,
) -> Result<Token, ModelFault>
    requires { Stands (seen F.Files files.old tokens.old) }
    ensures gives { IfOk result (Gives (next_token what item)
        (seen F.Files files.old tokens.old) (seen F.Files files.new tokens.new)) }
    ensures refuses { IfErr result
        (FormatRefuses (next_token what item) (seen F.Files files.old tokens.old) (seen F.Files files.new tokens.new)) }
{
    match tokens.next(files) {
        Ok(Some(token)) => Ok(token),
        Ok(None) => Err(ModelFault::Missing { what, item }),
        Err(fault) => Err(model_fault(fault)),
    }
}

/// A field of any value.
#[inline]
pub(crate) fn read_any<F: Files>(
    files: &mut F,
    tokens: &mut Tokens,
    what: Field,
    item: u64,
) -> Result<u32, ModelFault>
    requires { Stands (seen F.Files files.old tokens.old) }
    ensures gives { IfOk result (Gives (any what item)
        (seen F.Files files.old tokens.old) (seen F.Files files.new tokens.new)) }
    ensures refuses { IfErr result
        (FormatRefuses (any what item) (seen F.Files files.old tokens.old) (seen F.Files files.new tokens.new)) }
{
    let token = read_token(files, tokens, what, item)?;
    Ok(token.value)
}

/// A field whose value has to be from `least` to `most`.
pub(crate) fn read_field<F: Files>(
    files: &mut F,
    tokens: &mut Tokens,
    what: Field,
    item: u64,
    least: u32,
    most: u32,
) -> Result<u32, ModelFault>
    requires { Stands (seen F.Files files.old tokens.old) }
    ensures low { IfOk result (λ value. least ≤ value) }
    ensures high { IfOk result (λ value. value ≤ most) }
    ensures gives { IfOk result (Gives (field what item least most)
        (seen F.Files files.old tokens.old) (seen F.Files files.new tokens.new)) }
    ensures refuses { IfErr result (FormatRefuses (field what item least most)
        (seen F.Files files.old tokens.old) (seen F.Files files.new tokens.new)) }
{
    let token = read_token(files, tokens, what, item)?;
    if token.value < least || most < token.value {
        return Err(ModelFault::Range {
            what,
            at: token.at,
            value: token.value,
            least,
            most,
        });
    }
    Ok(token.value)
}

/// Whether resource `r` is transient.
pub(crate) fn read_flag<F: Files>(
    files: &mut F,
    tokens: &mut Tokens,
    r: u64,
) -> Result<bool, ModelFault>
    requires { Stands (seen F.Files files.old tokens.old) }
    ensures gives { IfOk result (Gives (flag r)
        (seen F.Files files.old tokens.old) (seen F.Files files.new tokens.new)) }
    ensures refuses { IfErr result
        (FormatRefuses (flag r) (seen F.Files files.old tokens.old) (seen F.Files files.new tokens.new)) }
{
    let token = read_token(files, tokens, Field::Transient, r)?;
    match token.value {
        0 => Ok(false),
        1 => Ok(true),
        value => Err(ModelFault::Flag {
            at: token.at,
            value,
        }),
    }
}

/// Adds `count` fields of any value to a table. Their item numbers are `first` and the numbers after it.
pub(crate) fn read_numbers<F: Files>(
    files: &mut F,
    tokens: &mut Tokens,
    what: Field,
    first: u64,
    count: usize,
    table: &mut Fixed<u32>,
) -> Result<(), ModelFault>
    requires stands { Stands (seen F.Files files.old tokens.old) }
    requires room { length table.old.items + count ≤ table.old.room }
    requires fits { first + count < 2 ^ 64 }
    ensures gives { OnOk result (Gives (numbers what first count table.old.items)
        (seen F.Files files.old tokens.old) (seen F.Files files.new tokens.new) table.new.items) }
    ensures length { OnOk result (length table.new.items ≡ length table.old.items + count) }
    ensures room { table.new.room ≡ table.old.room }
    ensures refuses { IfErr result (FormatRefuses (numbers what first count table.old.items)
        (seen F.Files files.old tokens.old) (seen F.Files files.new tokens.new)) }
{
    match tokens.next_values(files, count, table) {
        Ok(taken) if taken < count => Err(ModelFault::Missing {
            what,
            item: first + taken as u64,
        }),
        Ok(_) => Ok(()),
        Err(fault) => Err(model_fault(fault)),
    }
}

/// The end of the file.
pub(crate) fn read_end<F: Files>(files: &mut F, tokens: &mut Tokens) -> Result<(), ModelFault>
    requires { Stands (seen F.Files files.old tokens.old) }
    ensures gives { OnOk result (Gives ends
        (seen F.Files files.old tokens.old) (seen F.Files files.new tokens.new) tt) }
    ensures refuses { IfErr result
        (FormatRefuses ends (seen F.Files files.old tokens.old) (seen F.Files files.new tokens.new)) }
{
    match tokens.next(files) {
        Ok(Some(token)) => Err(ModelFault::Extra { at: token.at }),
        Ok(None) => Ok(()),
        Err(fault) => Err(model_fault(fault)),
    }
}
