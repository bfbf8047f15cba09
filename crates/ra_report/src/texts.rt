ghost use Rattle.std.specs.Prelude.{◌≡◌, ◌≤◌, length};
ghost use Rattle.ra_report.specs.CauseTexts.{words_text, cause_name};
ghost use Rattle.ra_report.specs.Gathering.{AddsText};
ghost use Rattle.ra_report.specs.Lines.{HasRoomForBytes, Prepends};
ghost use Rattle.ra_report.specs.Texts.{parts_text, cause_text, machines_text, assignment_line, with_four};

use crate::gathered::Gathered;
use crate::line::Line;
use crate::pieces::{Piece, add_marked, add_pieces};
use ra_base::{Cause, Machine, Parts};
use ra_io::Sink;

/// Adds the six lines of the parts: `cost`, `load`, `balance`, `process`, `service`, `machine`.
#[tactic(auto, unfolding(crate::specs::Texts::parts_text))]
pub fn add_parts<O: Sink>(text: &mut Gathered<'_, O>, parts: &Parts)
    ensures { AddsText O.taken O.faults text.old text.new (parts_text parts.now) }
{
    add_pieces(
        text,
        &[
            Piece::Text("cost "),
            Piece::Number(parts.total),
            Piece::Text("\nload "),
            Piece::Number(parts.load),
            Piece::Text("\nbalance "),
            Piece::Number(parts.balance),
            Piece::Text("\nprocess "),
            Piece::Number(parts.process),
            Piece::Text("\nservice "),
            Piece::Number(parts.service),
            Piece::Text("\nmachine "),
            Piece::Number(parts.machine),
            Piece::Text("\n"),
        ],
    )
}

/// Adds a cause: its name and its numbers, without an end of the line.
#[tactic(auto, unfolding(crate::specs::CauseTexts::words_text))]
pub fn add_cause<O: Sink>(text: &mut Gathered<'_, O>, cause: &Cause)
    ensures { AddsText O.taken O.faults text.old text.new (cause_text cause.now) }
{
    match cause_words(cause) {
        CauseWords::One(name, a) => {
            add_pieces(text, &[Piece::Text(name), Piece::Marked(b' ', a as u64)])
        }
        CauseWords::Two(name, a, b) => add_pieces(
            text,
            &[
                Piece::Text(name),
                Piece::Marked(b' ', a as u64),
                Piece::Marked(b' ', b as u64),
            ],
        ),
        CauseWords::Three(name, a, b, c) => add_pieces(
            text,
            &[
                Piece::Text(name),
                Piece::Marked(b' ', a as u64),
                Piece::Marked(b' ', b as u64),
                Piece::Marked(b' ', c as u64),
            ],
        ),
        CauseWords::Four(name, a, b, c, d) => add_four(text, name, a, b, c, d),
        CauseWords::Rise(before, after, allowed) => add_pieces(
            text,
            &[
                Piece::Text("rise "),
                Piece::Number(before),
                Piece::Text(" "),
                Piece::Number(after),
                Piece::Marked(b' ', allowed),
            ],
        ),
    }
}

/// Writes a cause in front: its name and its numbers.
#[inline(always)]
pub fn prepend_cause(line: &mut Line, cause: &Cause)
    requires { HasRoomForBytes line.old 105 }
    ensures { Prepends line.old line.new (cause_text cause.now) 105 }
{
    match cause_words(cause) {
        CauseWords::One(name, a) => {
            line.prepend_marked(b' ', a as u64);
            line.prepend(name.as_bytes())
        }
        CauseWords::Two(name, a, b) => {
            line.prepend_marked(b' ', b as u64);
            line.prepend_marked(b' ', a as u64);
            line.prepend(name.as_bytes())
        }
        CauseWords::Three(name, a, b, c) => {
            line.prepend_marked(b' ', c as u64);
            line.prepend_marked(b' ', b as u64);
            line.prepend_marked(b' ', a as u64);
            line.prepend(name.as_bytes())
        }
        CauseWords::Four(name, a, b, c, d) => {
            line.prepend_marked(b' ', d as u64);
            line.prepend_marked(b' ', c);
            line.prepend_marked(b' ', b as u64);
            line.prepend_marked(b' ', a as u64);
            line.prepend(name.as_bytes())
        }
        CauseWords::Rise(before, after, allowed) => {
            line.prepend_marked(b' ', allowed);
            line.prepend_wide(after);
            line.prepend_byte(b' ');
            line.prepend_wide(before);
            line.prepend(b"rise ")
        }
    }
}

/// The name of a cause and its numbers.
#[derive(Clone, Copy)]
pub enum CauseWords {
    /// One number.
    One(&'static str, u32),
    /// Two numbers.
    Two(&'static str, u32, u32),
    /// Three numbers.
    Three(&'static str, u32, u32, u32),
    /// Four numbers.
    Four(&'static str, u32, u32, u64, u32),
    /// The three numbers of a cost that rises.
    Rise(u128, u128, u64),
}

/// The name of a cause, which is short, and its numbers.
#[inline(always)]
#[tactic(auto, unfolding(crate::specs::CauseTexts::words_text, crate::specs::Texts::cause_text))]
pub fn cause_words(cause: &Cause) -> CauseWords
    ensures text { words_text result ≡ cause_text cause.now }
    ensures short { length (cause_name result) ≤ 10 }
{
    match *cause {
        Cause::Repeat { process } => CauseWords::One("repeat", process.0),
        Cause::Same { process } => CauseWords::One("same", process.0),
        Cause::Capacity {
            machine,
            resource,
            used,
            cap,
        } => CauseWords::Four("capacity", machine.0, resource.0, used, cap),
        Cause::Transient {
            machine,
            resource,
            used,
            cap,
        } => CauseWords::Four("transient", machine.0, resource.0, used, cap),
        Cause::Conflict { service, machine } => {
            CauseWords::Two("conflict", service.0, machine.0)
        }
        Cause::Spread {
            service,
            has,
            wants,
        } => CauseWords::Three("spread", service.0, has, wants),
        Cause::Dependency {
            service,
            needs,
            neighbourhood,
        } => CauseWords::Three("dependency", service.0, needs.0, neighbourhood),
        Cause::Rise {
            before,
            after,
            allowed,
        } => CauseWords::Rise(before, after, allowed),
        Cause::Closed { process, machine } => CauseWords::Two("closed", process.0, machine.0),
    }
}

/// A word and four numbers.
fn add_four<O: Sink>(text: &mut Gathered<'_, O>, word: &str, a: u32, b: u32, c: u64, d: u32)
    ensures { AddsText O.taken O.faults text.old text.new (with_four word.now a b c d) }
{
    text.add(word.as_bytes());
    add_marked(text, b' ', a as u64);
    add_marked(text, b' ', b as u64);
    add_marked(text, b' ', c);
    add_marked(text, b' ', d as u64)
}

/// Adds the line of an assignment.
pub fn add_assignment<O: Sink>(text: &mut Gathered<'_, O>, machines: &[Machine])
    ensures { AddsText O.taken O.faults text.old text.new (assignment_line machines.now) }
{
    add_pieces(text, &[Piece::Text("assignment")]);
    add_machines(text, machines);
    add_pieces(text, &[Piece::Text("\n")])
}

/// Adds the numbers of machines, with a space before each.
pub fn add_machines<O: Sink>(text: &mut Gathered<'_, O>, machines: &[Machine])
    ensures { AddsText O.taken O.faults text.old text.new (machines_text machines.now) }
{
    for machine in machines {
        add_pieces(text, &[Piece::Marked(b' ', machine.0 as u64)]);
    }
}
