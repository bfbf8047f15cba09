ghost use Rattle.std.specs.Prelude.{◌≡◌, ◌+◌, ◌<◌, ◌≤◌, length};
ghost use Rattle.ra_model_text.specs.Lines.{line_text, lines_text};
ghost use Rattle.ra_trial.specs.Lines.{AddsAtMost};
ghost use Rattle.ra_trial.specs.Numbers.{trial_word, trial_transient_of};
ghost use Rattle.ra_trial.specs.Trials.{resource_line, resource_lines, service_line, service_lines, process_line, process_lines, last_lines};

use crate::lines::push_line;
use crate::numbers::{PROCESSES, process_cost, requirement, spread};
use crate::words::Words;
use ra_base::Fixed;

/// How many resources there are.
const RESOURCES: u32 = 4;

/// How many services there are.
const SERVICES: u32 = 250;

/// The load weight of each resource.
const LOAD_WEIGHT: u32 = 10;

/// Adds the count of resources and the line of each.
pub(crate) fn push_resources(text: &mut Fixed<u8>)
    requires { length text.old.items + 104 ≤ text.old.room }
    ensures { AddsAtMost text.old text.new (lines_text resource_lines) 104 }
{
    push_line(text, &[RESOURCES]);
    for r in 0..RESOURCES {
        push_resource(text, r);
    }
}

/// Adds the line of resource `r`.
fn push_resource(text: &mut Fixed<u8>, r: u32)
    requires { length text.old.items + 23 ≤ text.old.room }
    ensures { AddsAtMost text.old text.new (line_text (resource_line r)) 23 }
{
    push_line(text, &[transient_flag(r), LOAD_WEIGHT]);
}

/// Only resource 0 is transient.
#[tactic(auto, unfolding(crate::specs::Numbers::trial_transient_of))]
fn transient_flag(r: u32) -> u32
    ensures { result ≡ trial_transient_of r }
{
    if r == 0 { 1 } else { 0 }
}

/// Adds the count of services and the line of each.
pub(crate) fn push_services(text: &mut Fixed<u8>, words: &Words)
    requires { length text.old.items + 8512 ≤ text.old.room }
    ensures { AddsAtMost text.old text.new (lines_text (service_lines (trial_word words.now.number)))
        8512 }
{
    push_line(text, &[SERVICES]);
    for s in 0..SERVICES {
        push_service(text, words, s);
    }
}

/// Adds the line of service `s`.
fn push_service(text: &mut Fixed<u8>, words: &Words, s: u32)
    requires service { s < 250 }
    requires room { length text.old.items + 34 ≤ text.old.room }
    ensures { AddsAtMost text.old text.new (line_text (service_line (trial_word words.now.number) s)) 34 }
{
    let wants = spread(words, s);
    if s % 5 == 0 {
        push_line(text, &[wants, 1, (s + 25) % SERVICES]);
    } else {
        push_line(text, &[wants, 0]);
    }
}

/// Adds the count of processes and the line of each.
pub(crate) fn push_processes(text: &mut Fixed<u8>, words: &Words)
    requires { length text.old.items + 67012 ≤ text.old.room }
    ensures { AddsAtMost text.old text.new (lines_text (process_lines (trial_word words.now.number)))
        67012 }
{
    push_line(text, &[PROCESSES]);
    for p in 0..PROCESSES {
        push_process(text, words, p);
    }
}

/// Adds the line of process `p`.
fn push_process(text: &mut Fixed<u8>, words: &Words, p: u32)
    requires process { p < 1000 }
    requires room { length text.old.items + 67 ≤ text.old.room }
    ensures { AddsAtMost text.old text.new (line_text (process_line (trial_word words.now.number) p)) 67 }
{
    push_line(
        text,
        &[
            p / 4,
            requirement(words, p, 0),
            requirement(words, p, 1),
            requirement(words, p, 2),
            requirement(words, p, 3),
            process_cost(words, p),
        ],
    );
}

/// Adds the balance objective and the weights of moves.
pub(crate) fn push_last(text: &mut Fixed<u8>)
    requires { length text.old.items + 92 ≤ text.old.room }
    ensures { AddsAtMost text.old text.new (lines_text last_lines) 92 }
{
    push_line(text, &[1]);
    push_line(text, &[0, 1, 2]);
    push_line(text, &[10]);
    push_line(text, &[1, 10, 100]);
}
