ghost use Rattle.std.specs.Prelude.{◌≡◌, ℕ, ◌<◌, ◌≤◌, List, false, length, replicate, IfSome, IfOk, IfErr, OnOk, Err};
ghost use Rattle.ra_io.specs.Faults.{Rose};
ghost use Rattle.ra_token.specs.TokenList.{tokens_before};
ghost use Rattle.ra_model.specs.Numbers.{machine_count};
ghost use Rattle.ra_assign.specs.ClosedLists.{IsClosedOf, closed_fault};
ghost use Rattle.ra_assign.specs.Answers.{IsClosedRefusal};
ghost use Rattle.ra_token.specs.Moments.{moment, Stands, Went, Refuses, HasNext, HasFault};
ghost use Rattle.ra_assign.specs.Reading.{ClosedNext, ClosedStop};

use crate::faults::ClosedFault;
use ra_base::{Fixed, Machine};
use ra_io::Files;
use ra_model::{Instance, copies};
use ra_token::{PLACE_LIMIT, Token, TokenFault, Tokens};
use std::alloc::Global;

/// A flag for each machine of an instance that says whether a closed list names it. `Ok` says that the file was read to
/// its end.
///
/// # Errors
///
/// The first refusal in the order of the numbers: a number that doesn't name a machine, or a fault of the file.
pub fn read_closed<F: Files>(
    alloc: Global,
    files: &mut F,
    name: &str,
    inst: &Instance,
) -> Result<Fixed<bool>, ClosedFault>
    ensures ok { IfOk result (λ flags. IfSome (F.held files.old name.now) (λ bytes.
        IsClosedOf bytes inst.now.tables flags.items)) }
    ensures fits { IfOk result (λ flags. length flags.items ≡ machine_count inst.now.tables) }
    ensures refused { IfErr result (λ fault. IfSome (F.held files.old name.now) (λ bytes.
        IsClosedRefusal bytes inst.now.tables fault)) }
    ensures fault { result ≡ Err ClosedFault.ReadFault →
        Rose (F.faults files.old name.now) (F.faults files.new name.now) }
    ensures kept { (other : List ℕ) → F.held files.new other ≡ F.held files.old other }
    ensures never_fall { (other : List ℕ) → F.faults files.old other ≤ F.faults files.new other }
{
    let Ok(mut tokens) = Tokens::make(alloc, name) else {
        return Err(ClosedFault::NoMemory);
    };
    let Ok(mut flags) = copies(alloc, inst.machines() as usize, false) else {
        return Err(ClosedFault::NoMemory);
    };
    flag_machines(files, &mut tokens, inst, &mut flags)?;
    Ok(flags)
}

/// Sets the flag of each machine that the file names, and reads it to its end.
fn flag_machines<F: Files>(
    files: &mut F,
    tokens: &mut Tokens,
    inst: &Instance,
    flags: &mut Fixed<bool>,
) -> Result<(), ClosedFault>
    requires stands { Stands (moment F.Files files.old tokens.old) }
    requires start { (bytes : List ℕ) → tokens_before bytes tokens.old.place ≡ 0 }
    requires none_flagged { flags.old.items ≡ replicate (machine_count inst.now.tables) false }
    ensures gives { OnOk result (Went (λ bytes before after.
        IsClosedOf bytes inst.now.tables flags.new.items)
        (moment F.Files files.old tokens.old) (moment F.Files files.new tokens.new)) }
    ensures fits { OnOk result (length flags.new.items ≡ machine_count inst.now.tables) }
    ensures refuses { IfErr result (λ fault. Refuses ClosedFault.ReadFault (λ bytes before.
        IsClosedRefusal bytes inst.now.tables fault)
        (moment F.Files files.old tokens.old) (moment F.Files files.new tokens.new) fault) }
{
    for taken in 0..PLACE_LIMIT + 1 {
        let Some(machine) = next_closed(files, tokens, inst)? else {
            return Ok(());
        };
        flags.set(machine.0 as usize, true);
    }
    Err(ClosedFault::TooLong)
}

/// The machine that the next number names, or none at the end of the file.
fn next_closed<F: Files>(
    files: &mut F,
    tokens: &mut Tokens,
    inst: &Instance,
) -> Result<Option<Machine>, ClosedFault>
    requires stands { Stands (moment F.Files files.old tokens.old) }
    ensures gives { IfOk result (λ next.
        Went (λ bytes before after. ClosedNext bytes inst.now.tables before after next)
        (moment F.Files files.old tokens.old) (moment F.Files files.new tokens.new)) }
    ensures exists { IfOk result (λ next. IfSome next (λ m. m.0 < machine_count inst.now.tables)) }
    ensures refuses { IfErr result (λ fault. Refuses ClosedFault.ReadFault (λ bytes before.
        ClosedStop bytes inst.now.tables before fault)
        (moment F.Files files.old tokens.old) (moment F.Files files.new tokens.new) fault) }
{
    let Some(token) = next_token(files, tokens)? else {
        return Ok(None);
    };
    if token.value >= inst.machines() {
        return Err(ClosedFault::NoMachine {
            at: token.at,
            value: token.value,
        });
    }
    Ok(Some(Machine(token.value)))
}

/// The next token, or none at the end of the file.
fn next_token<F: Files>(files: &mut F, tokens: &mut Tokens) -> Result<Option<Token>, ClosedFault>
    requires stands { Stands (moment F.Files files.old tokens.old) }
    ensures gives { IfOk result (λ next.
        Went (λ bytes before after. HasNext bytes before after next)
        (moment F.Files files.old tokens.old) (moment F.Files files.new tokens.new)) }
    ensures refuses { IfErr result (λ fault. Refuses ClosedFault.ReadFault (λ bytes before.
        HasFault closed_fault bytes before fault)
        (moment F.Files files.old tokens.old) (moment F.Files files.new tokens.new) fault) }
{
    match tokens.next(files) {
        Ok(next) => Ok(next),
        Err(fault) => Err(fault_of(fault)),
    }
}

/// The fault of a token, as a fault of a closed list.
#[tactic(auto, unfolding(crate::specs::ClosedLists::closed_fault))]
fn fault_of(fault: TokenFault) -> ClosedFault
    ensures { result ≡ closed_fault fault }
{
    match fault {
        TokenFault::ReadFault => ClosedFault::ReadFault,
        TokenFault::BadByte { at, byte } => ClosedFault::BadByte { at, byte },
        TokenFault::TooLarge { at } => ClosedFault::TooLarge { at },
        TokenFault::TooLong => ClosedFault::TooLong,
        TokenFault::NoMemory => ClosedFault::NoMemory,
    }
}
