ghost use Rattle.std.specs.Prelude.{◌≡◌, ℕ, ◌+◌, ◌*◌, ◌<◌, ◌≤◌, List, ◌++◌, length, replicate, IfSome, IfOk, IfErr, OnOk, Ok, Err, None};
ghost use Rattle.ra_io.specs.Faults.{Rose};
ghost use Rattle.ra_token.specs.TokenList.{tokens_before};
ghost use Rattle.ra_token.specs.Moments.{moment, Stands, Went, Refuses};
ghost use Rattle.ra_edit_read.specs.EditLists.{AreEditsFor};
ghost use Rattle.ra_edit_read.specs.EditTexts.{AreEditsOf, numbers_test, added_test, resized_test, any_at};
ghost use Rattle.ra_edit_read.specs.Answers.{IsEditsRefusal, EditsSays};
ghost use Rattle.ra_edit_read.specs.Reading.{TakesEdit, NextEdit, EditStop, EditsHaveEnded, AreAllEdits, HasRowRoom, AddsRequirements, MayAddRow, AreFew, AreEmpty};

use crate::edits::{Edit, Edits};
use crate::faults::EditsFault;
use crate::numbers::{any_number, next_token, number_below, take_numbers};
use ra_base::{Fixed, Machine, Service};
use ra_io::Files;
use ra_model::Instance;
use ra_token::Tokens;
use std::alloc::Global;

/// How many edits a file may have.
pub const MOST_EDITS: u64 = 100_000;

/// The edits of a file, for an instance. `Ok` says that the file was read to its end.
///
/// # Errors
///
/// The first refusal in the order of the numbers: a fault of the file, an edit that isn't whole, a kind that doesn't
/// exist, an added process whose service or machine doesn't exist, or a number after the last edit that a file may
/// have.
pub fn read_edits<F: Files>(
    alloc: Global,
    files: &mut F,
    name: &str,
    inst: &Instance,
) -> Result<Edits, EditsFault>
    ensures ok { IfOk result (λ edits. IfSome (F.held files.old name.now) (λ bytes.
        AreEditsOf bytes inst.now.tables edits)) }
    ensures fits { IfOk result (λ edits. AreEditsFor inst.now.tables edits) }
    ensures refused { IfErr result (λ fault. IfSome (F.held files.old name.now) (λ bytes.
        IsEditsRefusal bytes inst.now.tables fault)) }
    ensures fault { result ≡ Err EditsFault.ReadFault →
        Rose (F.faults files.old name.now) (F.faults files.new name.now) }
    ensures kept { (other : List ℕ) → F.held files.new other ≡ F.held files.old other }
    ensures never_fall { (other : List ℕ) → F.faults files.old other ≤ F.faults files.new other }
{
    let Ok(mut tokens) = Tokens::make(alloc, name) else {
        return Err(EditsFault::NoMemory);
    };
    read_lists(alloc, files, &mut tokens, inst)
}

/// All edits, from the start of the file to its end.
fn read_lists<F: Files>(
    alloc: Global,
    files: &mut F,
    tokens: &mut Tokens,
    inst: &Instance,
) -> Result<Edits, EditsFault>
    requires stands { Stands (moment F.Files files.old tokens.old) }
    requires start { (bytes : List ℕ) → tokens_before bytes tokens.old.place ≡ 0 }
    ensures gives { IfOk result (λ edits. Went (λ bytes before after.
        AreEditsOf bytes inst.now.tables edits)
        (moment F.Files files.old tokens.old) (moment F.Files files.new tokens.new)) }
    ensures fits { IfOk result (λ edits. AreEditsFor inst.now.tables edits) }
    ensures refuses { IfErr result (λ fault. Refuses EditsFault.ReadFault (λ bytes before.
        IsEditsRefusal bytes inst.now.tables fault)
        (moment F.Files files.old tokens.old) (moment F.Files files.new tokens.new) fault) }
{
    let Ok(mut edits) = Fixed::make(alloc, MOST_EDITS as usize) else {
        return Err(EditsFault::NoMemory);
    };
    let width = inst.resources();
    let room = MOST_EDITS as usize * width as usize;
    let Ok(mut requirements) = Fixed::make(alloc, room) else {
        return Err(EditsFault::NoMemory);
    };
    read_all(files, tokens, inst, &mut edits, &mut requirements)?;
    Ok(Edits {
        width,
        edits,
        requirements,
    })
}

/// Fills two empty lists with the edits and their requirements, and reads the file to its end.
fn read_all<F: Files>(
    files: &mut F,
    tokens: &mut Tokens,
    inst: &Instance,
    edits: &mut Fixed<Edit>,
    requirements: &mut Fixed<u32>,
) -> Result<(), EditsFault>
    requires stands { Stands (moment F.Files files.old tokens.old) }
    requires start { (bytes : List ℕ) → tokens_before bytes tokens.old.place ≡ 0 }
    requires empty { AreEmpty inst.now.tables edits.old requirements.old }
    ensures gives { OnOk result (Went (λ bytes before after.
        AreAllEdits bytes inst.now.tables edits.new.items requirements.new.items)
        (moment F.Files files.old tokens.old) (moment F.Files files.new tokens.new)) }
    ensures are { OnOk result (AreFew inst.now.tables edits.new.items requirements.new.items) }
    ensures refuses { IfErr result (λ fault. Refuses EditsFault.ReadFault (λ bytes before.
        IsEditsRefusal bytes inst.now.tables fault)
        (moment F.Files files.old tokens.old) (moment F.Files files.new tokens.new) fault) }
{
    for k in 0..MOST_EDITS {
        let Some(edit) = next_edit(files, tokens, inst, k, requirements)? else {
            return Ok(());
        };
        edits.push(edit);
    }
    read_end(files, tokens, inst)?;
    Ok(())
}

/// The end of the file, after the last edit that a file may have.
fn read_end<F: Files>(files: &mut F, tokens: &mut Tokens, inst: &Instance) -> Result<(), EditsFault>
    requires stands { Stands (moment F.Files files.old tokens.old) }
    ensures gives { OnOk result (Went (λ bytes before after. EditsHaveEnded bytes before)
        (moment F.Files files.old tokens.old) (moment F.Files files.new tokens.new)) }
    ensures refuses { IfErr result (λ fault. Refuses EditsFault.ReadFault (λ bytes before.
        EditStop bytes inst.now.tables 100000 before fault)
        (moment F.Files files.old tokens.old) (moment F.Files files.new tokens.new) fault) }
{
    let next = next_token(files, tokens)?;
    match next {
        Some(token) => Err(EditsFault::TooMany { at: token.at }),
        None => Ok(()),
    }
}

/// Edit number `k`, or none at the end of the file. What its process requires is added to a list.
fn next_edit<F: Files>(
    files: &mut F,
    tokens: &mut Tokens,
    inst: &Instance,
    k: u64,
    requirements: &mut Fixed<u32>,
) -> Result<Option<Edit>, EditsFault>
    requires stands { Stands (moment F.Files files.old tokens.old) }
    requires few { k < 100000 }
    requires room { HasRowRoom inst.now.tables requirements.old }
    ensures gives { IfOk result (λ next. Went (λ bytes before after.
        NextEdit bytes inst.now.tables k before after
        requirements.old.items requirements.new.items next)
        (moment F.Files files.old tokens.old) (moment F.Files files.new tokens.new)) }
    ensures row { MayAddRow inst.now.tables requirements.old requirements.new result }
    ensures refuses { IfErr result (λ fault. Refuses EditsFault.ReadFault (λ bytes before.
        EditStop bytes inst.now.tables k before fault)
        (moment F.Files files.old tokens.old) (moment F.Files files.new tokens.new) fault) }
{
    let Some(token) = next_token(files, tokens)? else {
        return Ok(None);
    };
    if token.value == 0 || token.value > 3 {
        return Err(EditsFault::Range {
            at: token.at,
            value: token.value,
            least: 1,
            most: 3,
        });
    }
    let edit = read_numbers(files, tokens, inst, k, token.value, requirements)?;
    Ok(Some(edit))
}

/// The numbers after the kind of edit `k`.
fn read_numbers<F: Files>(
    files: &mut F,
    tokens: &mut Tokens,
    inst: &Instance,
    k: u64,
    kind: u32,
    requirements: &mut Fixed<u32>,
) -> Result<Edit, EditsFault>
    requires stands { Stands (moment F.Files files.old tokens.old) }
    requires room { HasRowRoom inst.now.tables requirements.old }
    ensures gives { IfOk result (λ edit. Went (λ bytes before after.
        TakesEdit bytes inst.now.tables k kind before after
        requirements.old.items requirements.new.items edit)
        (moment F.Files files.old tokens.old) (moment F.Files files.new tokens.new)) }
    ensures row { AddsRequirements inst.now.tables requirements.old requirements.new result }
    ensures refuses { IfErr result (λ fault. Refuses EditsFault.ReadFault (λ bytes before.
        EditsSays (numbers_test bytes inst.now.tables k kind (tokens_before bytes before)) fault)
        (moment F.Files files.old tokens.old) (moment F.Files files.new tokens.new) fault) }
{
    match kind {
        1 => read_added(files, tokens, inst, k, requirements),
        2 => read_retired(files, tokens, inst, k, requirements),
        _ => read_resized(files, tokens, inst, k, requirements),
    }
}

/// An added process: its service, its machine, its requirements and its move cost.
fn read_added<F: Files>(
    files: &mut F,
    tokens: &mut Tokens,
    inst: &Instance,
    k: u64,
    requirements: &mut Fixed<u32>,
) -> Result<Edit, EditsFault>
    requires stands { Stands (moment F.Files files.old tokens.old) }
    requires room { HasRowRoom inst.now.tables requirements.old }
    ensures gives { IfOk result (λ edit. Went (λ bytes before after.
        TakesEdit bytes inst.now.tables k 1 before after
        requirements.old.items requirements.new.items edit)
        (moment F.Files files.old tokens.old) (moment F.Files files.new tokens.new)) }
    ensures row { AddsRequirements inst.now.tables requirements.old requirements.new result }
    ensures refuses { IfErr result (λ fault. Refuses EditsFault.ReadFault (λ bytes before.
        EditsSays (added_test bytes inst.now.tables k (tokens_before bytes before)) fault)
        (moment F.Files files.old tokens.old) (moment F.Files files.new tokens.new) fault) }
{
    let service = number_below(files, tokens, k, inst.services())?;
    let machine = number_below(files, tokens, k, inst.machines())?;
    take_numbers(files, tokens, k, inst.resources() as usize, requirements)?;
    let move_cost = any_number(files, tokens, k)?;
    Ok(Edit::Add {
        service: Service(service),
        machine: Machine(machine),
        move_cost,
    })
}

/// A retired process. It requires nothing of each resource.
fn read_retired<F: Files>(
    files: &mut F,
    tokens: &mut Tokens,
    inst: &Instance,
    k: u64,
    requirements: &mut Fixed<u32>,
) -> Result<Edit, EditsFault>
    requires stands { Stands (moment F.Files files.old tokens.old) }
    requires room { HasRowRoom inst.now.tables requirements.old }
    ensures gives { IfOk result (λ edit. Went (λ bytes before after.
        TakesEdit bytes inst.now.tables k 2 before after
        requirements.old.items requirements.new.items edit)
        (moment F.Files files.old tokens.old) (moment F.Files files.new tokens.new)) }
    ensures row { AddsRequirements inst.now.tables requirements.old requirements.new result }
    ensures refuses { IfErr result (λ fault. Refuses EditsFault.ReadFault (λ bytes before.
        EditsSays (any_at bytes k (tokens_before bytes before)) fault)
        (moment F.Files files.old tokens.old) (moment F.Files files.new tokens.new) fault) }
{
    let process = any_number(files, tokens, k)?;
    push_zeros(inst.resources(), requirements);
    Ok(Edit::Retire { process })
}

/// A resized process and its requirements.
fn read_resized<F: Files>(
    files: &mut F,
    tokens: &mut Tokens,
    inst: &Instance,
    k: u64,
    requirements: &mut Fixed<u32>,
) -> Result<Edit, EditsFault>
    requires stands { Stands (moment F.Files files.old tokens.old) }
    requires room { HasRowRoom inst.now.tables requirements.old }
    ensures gives { IfOk result (λ edit. Went (λ bytes before after.
        TakesEdit bytes inst.now.tables k 3 before after
        requirements.old.items requirements.new.items edit)
        (moment F.Files files.old tokens.old) (moment F.Files files.new tokens.new)) }
    ensures row { AddsRequirements inst.now.tables requirements.old requirements.new result }
    ensures refuses { IfErr result (λ fault. Refuses EditsFault.ReadFault (λ bytes before.
        EditsSays (resized_test bytes inst.now.tables k (tokens_before bytes before)) fault)
        (moment F.Files files.old tokens.old) (moment F.Files files.new tokens.new) fault) }
{
    let process = any_number(files, tokens, k)?;
    take_numbers(files, tokens, k, inst.resources() as usize, requirements)?;
    Ok(Edit::Resize { process })
}

/// Adds zeros to a list.
#[tactic(auto, using(ra_model::proofs::CopyLemmas::copies_more))]
fn push_zeros(count: u32, list: &mut Fixed<u32>)
    requires { length list.old.items + count ≤ list.old.room }
    ensures items { list.new.items ≡ list.old.items ++ replicate count 0 }
    ensures room { list.new.room ≡ list.old.room }
{
    for k in 0..count {
        list.push(0);
    }
}
