ghost use Rattle.std.specs.Prelude.{◌≡◌, IfOk};
ghost use Rattle.ra_trial.specs.Lines.{listed};
ghost use Rattle.ra_trial.specs.Trials.{trial_model_text, start_machine, start_text};

use crate::groups::{push_last, push_processes, push_resources, push_services};
use crate::machines::{make_line, push_machines};
use crate::numbers::{MACHINES, PROCESSES};
use crate::words::Words;
use ra_assign::assignment_text;
use ra_base::{Assignment, Fixed, Machine, NoMemory};
use std::alloc::Global;

/// How many bytes the text of a model has at most: for each number 10 digits and the byte after them, and LF.
const MODEL_ROOM: usize = 196_832;

/// The texts of a trial instance.
#[derive(Drop)]
pub struct TrialText {
    /// The model file.
    pub model: Fixed<u8>,
    /// The assignment file of the start.
    pub start: Fixed<u8>,
}

/// The texts of the trial of a number, whose words are those of the generator xoshiro256++ that the number seeds. It
/// fails only if the system refuses memory.
pub fn trial_text(alloc: Global, number: u64) -> Result<TrialText, NoMemory>
    ensures model { IfOk result (λ text. text.model.items ≡ trial_model_text number) }
    ensures start { IfOk result (λ text. text.start.items ≡ start_text) }
{
    let model = model_file(alloc, number)?;
    let start = start_file(alloc)?;
    Ok(TrialText { model, start })
}

/// The text of the model.
fn model_file(alloc: Global, number: u64) -> Result<Fixed<u8>, NoMemory>
    ensures { IfOk result (λ text. text.items ≡ trial_model_text number) }
{
    let words = Words::of(alloc, number)?;
    let mut line = make_line(alloc)?;
    let mut text = Fixed::make(alloc, MODEL_ROOM)?;
    push_resources(&mut text);
    push_machines(&mut text, &mut line, &words);
    push_services(&mut text, &words);
    push_processes(&mut text, &words);
    push_last(&mut text);
    Ok(text)
}

/// The text of the start.
#[tactic(auto, unfolding(crate::specs::Trials::start_text))]
fn start_file(alloc: Global) -> Result<Fixed<u8>, NoMemory>
    ensures { IfOk result (λ text. text.items ≡ start_text) }
{
    let machines = start(alloc)?;
    assignment_text(alloc, &machines)
}

/// The assignment at the start.
fn start(alloc: Global) -> Result<Assignment, NoMemory>
    ensures { IfOk result (λ a. a.items ≡ listed 1000 start_machine) }
{
    let mut machines: Assignment = Fixed::make(alloc, PROCESSES as usize)?;
    for p in 0..PROCESSES {
        machines.push(Machine(p % MACHINES));
    }
    Ok(machines)
}
