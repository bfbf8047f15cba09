ghost use Rattle.std.specs.Prelude.{◌≡◌, ℕ, ◌<◌, ◌≤◌, List, [], IfSome, IfOk, IfErr, OnOk, Err};
ghost use Rattle.ra_io.specs.Faults.{Rose};
ghost use Rattle.ra_token.specs.TokenList.{tokens_before};
ghost use Rattle.ra_model.specs.Assignments.{IsAssignment};
ghost use Rattle.ra_model.specs.Numbers.{machine_count, process_count};
ghost use Rattle.ra_assign.specs.Lists.{IsAssignmentOf, assign_fault, process_test, end_test};
ghost use Rattle.ra_assign.specs.Answers.{IsAssignRefusal, AssignSays};
ghost use Rattle.ra_token.specs.Moments.{moment, Stands, Went, Refuses, HasNext, HasFault};
ghost use Rattle.ra_assign.specs.Reading.{TakesMachine, HasEnded};

use crate::faults::AssignFault;
use ra_base::{Assignment, Fixed, Machine, Process};
use ra_io::Files;
use ra_model::Instance;
use ra_token::{Token, TokenFault, Tokens};
use std::alloc::Global;

/// The assignment that a file means for an instance: one number for each process, in their order, its machine. `Ok`
/// says that the file was read to its end.
///
/// # Errors
///
/// The first refusal in the order of the numbers: a fault of the file, a machine that is missing or doesn't exist, or a
/// number after the last process.
pub fn read_assignment<F: Files>(
    alloc: Global,
    files: &mut F,
    name: &str,
    inst: &Instance,
) -> Result<Assignment, AssignFault>
    ensures ok { IfOk result (λ a. IfSome (F.held files.old name.now) (λ bytes.
        IsAssignmentOf bytes inst.now.tables a.items)) }
    ensures fits { IfOk result (λ a. IsAssignment inst.now.tables a.items) }
    ensures refused { IfErr result (λ fault. IfSome (F.held files.old name.now) (λ bytes.
        IsAssignRefusal bytes inst.now.tables fault)) }
    ensures fault { result ≡ Err AssignFault.ReadFault →
        Rose (F.faults files.old name.now) (F.faults files.new name.now) }
    ensures kept { (other : List ℕ) → F.held files.new other ≡ F.held files.old other }
    ensures never_fall { (other : List ℕ) → F.faults files.old other ≤ F.faults files.new other }
{
    let Ok(mut tokens) = Tokens::make(alloc, name) else {
        return Err(AssignFault::NoMemory);
    };
    let Ok(mut list) = Fixed::make(alloc, inst.processes() as usize) else {
        return Err(AssignFault::NoMemory);
    };
    read_machines(files, &mut tokens, inst, &mut list)?;
    Ok(list)
}

/// Fills an empty list with the machine of each process, and reads the file to its end.
fn read_machines<F: Files>(
    files: &mut F,
    tokens: &mut Tokens,
    inst: &Instance,
    list: &mut Assignment,
) -> Result<(), AssignFault>
    requires stands { Stands (moment F.Files files.old tokens.old) }
    requires start { (bytes : List ℕ) → tokens_before bytes tokens.old.place ≡ 0 }
    requires empty { list.old.items ≡ [] }
    requires room { list.old.room ≡ process_count inst.now.tables }
    ensures gives { OnOk result (Went (λ bytes before after.
        IsAssignmentOf bytes inst.now.tables list.new.items)
        (moment F.Files files.old tokens.old) (moment F.Files files.new tokens.new)) }
    ensures fits { OnOk result (IsAssignment inst.now.tables list.new.items) }
    ensures refuses { IfErr result (λ fault. Refuses AssignFault.ReadFault (λ bytes before.
        IsAssignRefusal bytes inst.now.tables fault)
        (moment F.Files files.old tokens.old) (moment F.Files files.new tokens.new) fault) }
{
    for p in 0..inst.processes() {
        let machine = next_machine(files, tokens, inst, p)?;
        list.push(machine);
    }
    read_end(files, tokens)?;
    Ok(())
}

/// The machine of process `p`, which is the next number.
fn next_machine<F: Files>(
    files: &mut F,
    tokens: &mut Tokens,
    inst: &Instance,
    p: u32,
) -> Result<Machine, AssignFault>
    requires stands { Stands (moment F.Files files.old tokens.old) }
    ensures gives { IfOk result (λ m.
        Went (λ bytes before after. TakesMachine bytes inst.now.tables before after m)
        (moment F.Files files.old tokens.old) (moment F.Files files.new tokens.new)) }
    ensures exists { IfOk result (λ m. m.0 < machine_count inst.now.tables) }
    ensures refuses { IfErr result (λ fault. Refuses AssignFault.ReadFault (λ bytes before.
        tokens_before bytes before ≡ p → AssignSays (process_test bytes inst.now.tables p) fault)
        (moment F.Files files.old tokens.old) (moment F.Files files.new tokens.new) fault) }
{
    let Some(token) = next_token(files, tokens)? else {
        return Err(AssignFault::Missing {
            process: Process(p),
        });
    };
    if token.value >= inst.machines() {
        return Err(AssignFault::NoMachine {
            process: Process(p),
            value: token.value,
        });
    }
    Ok(Machine(token.value))
}

/// The end of the file, after the last process.
fn read_end<F: Files>(files: &mut F, tokens: &mut Tokens) -> Result<(), AssignFault>
    requires stands { Stands (moment F.Files files.old tokens.old) }
    ensures gives { OnOk result (Went (λ bytes before after. HasEnded bytes before)
        (moment F.Files files.old tokens.old) (moment F.Files files.new tokens.new)) }
    ensures refuses { IfErr result (λ fault. Refuses AssignFault.ReadFault (λ bytes before.
        AssignSays (end_test bytes (tokens_before bytes before)) fault)
        (moment F.Files files.old tokens.old) (moment F.Files files.new tokens.new) fault) }
{
    let next = next_token(files, tokens)?;
    match next {
        Some(token) => Err(AssignFault::Extra { at: token.at }),
        None => Ok(()),
    }
}

/// The next token, or none at the end of the file.
fn next_token<F: Files>(files: &mut F, tokens: &mut Tokens) -> Result<Option<Token>, AssignFault>
    requires stands { Stands (moment F.Files files.old tokens.old) }
    ensures gives { IfOk result (λ next.
        Went (λ bytes before after. HasNext bytes before after next)
        (moment F.Files files.old tokens.old) (moment F.Files files.new tokens.new)) }
    ensures refuses { IfErr result (λ fault. Refuses AssignFault.ReadFault (λ bytes before.
        HasFault assign_fault bytes before fault)
        (moment F.Files files.old tokens.old) (moment F.Files files.new tokens.new) fault) }
{
    match tokens.next(files) {
        Ok(next) => Ok(next),
        Err(fault) => Err(fault_of(fault)),
    }
}

/// The fault of a token, as a fault of an assignment.
#[tactic(auto, unfolding(crate::specs::Lists::assign_fault))]
fn fault_of(fault: TokenFault) -> AssignFault
    ensures { result ≡ assign_fault fault }
{
    match fault {
        TokenFault::ReadFault => AssignFault::ReadFault,
        TokenFault::BadByte { at, byte } => AssignFault::BadByte { at, byte },
        TokenFault::TooLarge { at } => AssignFault::TooLarge { at },
        TokenFault::TooLong => AssignFault::TooLong,
        TokenFault::NoMemory => AssignFault::NoMemory,
    }
}
