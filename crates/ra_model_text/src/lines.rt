ghost use Rattle.std.specs.Prelude.{◌≡◌, ◌<◌, ◌≤◌, [], ◌∷◌, decimal, length};
ghost use Rattle.ra_base.specs.Sums.{one_if};
ghost use Rattle.ra_model.specs.Numbers.{resource_count, machine_count, service_count, process_count, balance_count, transient_at, capacity_of, safety_of, way_cost_of, dependency_count, need_of, requirement_of};
ghost use Rattle.ra_model_text.specs.Lines.{line_text};
ghost use Rattle.ra_model_text.specs.ModelTexts.{resource_text, machine_text, service_text, process_text, balance_text};
ghost use Rattle.ra_report.specs.Gathering.{AddsText};
ghost use Rattle.ra_model_text.specs.ModelLines.{spaced, numbers_text};

use itoa::Buffer;
use ra_base::{Machine, Process, Resource, Service, Steps};
use ra_io::Sink;
use ra_model::Instance;
use ra_report::{Gathered, Line};
use std::sync::ledger::Ledger;

/// How many numbers are written into a line at a time: this many fit, with a space and up to twenty digits each.
const NUMBERS_AT_ONCE: usize = 19;

/// Adds the digits of the first number of a line.
#[inline(always)]
fn add_digits<O: Sink>(text: &mut Gathered<'_, O>, number: u64)
    ensures { AddsText O.taken O.faults text.old text.new (decimal number) }
{
    text.add(Buffer::new().format(number).as_bytes())
}

/// Adds a space, and the digits of a further number of a line.
#[inline(always)]
fn add_more<O: Sink>(text: &mut Gathered<'_, O>, number: u64)
    ensures { AddsText O.taken O.faults text.old text.new (32 ∷ decimal number) }
{
    text.add(b" ");
    add_digits(text, number)
}

/// Adds a line of one number.
pub(crate) fn add_one<O: Sink>(text: &mut Gathered<'_, O>, a: u32)
    ensures { AddsText O.taken O.faults text.old text.new (line_text (a ∷ [])) }
{
    add_digits(text, a as u64);
    text.add(b"\n")
}

/// Adds a line of two numbers.
fn add_two<O: Sink>(text: &mut Gathered<'_, O>, a: u32, b: u32)
    ensures { AddsText O.taken O.faults text.old text.new (line_text (a ∷ b ∷ [])) }
{
    add_digits(text, a as u64);
    add_more(text, b as u64);
    text.add(b"\n")
}

/// Adds a line of three numbers.
pub(crate) fn add_three<O: Sink>(text: &mut Gathered<'_, O>, a: u32, b: u32, c: u32)
    ensures { AddsText O.taken O.faults text.old text.new (line_text (a ∷ b ∷ c ∷ [])) }
{
    add_digits(text, a as u64);
    add_more(text, b as u64);
    add_more(text, c as u64);
    text.add(b"\n")
}

/// Adds the line of a resource.
pub(crate) fn add_resource<O: Sink>(text: &mut Gathered<'_, O>, inst: &Instance, r: Resource)
    requires { r.0 < resource_count inst.now.tables }
    ensures { AddsText O.taken O.faults text.old text.new (resource_text inst.now.tables r.0) }
{
    add_two(text, transient_flag(inst, r), inst.load_weight(r))
}

/// Whether a resource is transient, as a number.
fn transient_flag(inst: &Instance, r: Resource) -> u32
    requires { r.0 < resource_count inst.now.tables }
    ensures { result ≡ one_if (transient_at inst.now.tables r.0) }
{
    if inst.transient(r) { 1 } else { 0 }
}

/// Adds the line of a machine.
pub(crate) fn add_machine<O: Sink>(text: &mut Gathered<'_, O>, inst: &Instance, m: Machine)
    requires { m.0 < machine_count inst.now.tables }
    ensures { AddsText O.taken O.faults text.old text.new (machine_text inst.now.tables m.0) }
{
    add_digits(text, inst.neighbourhood(m) as u64);
    add_more(text, inst.location(m) as u64);
    add_capacities(text, inst, m);
    add_safeties(text, inst, m);
    add_way_costs(text, inst, m);
    text.add(b"\n")
}

/// Adds the capacities of a machine, with a space before each.
fn add_capacities<O: Sink>(text: &mut Gathered<'_, O>, inst: &Instance, m: Machine)
    requires { m.0 < machine_count inst.now.tables }
    ensures { AddsText O.taken O.faults text.old text.new
        (spaced (resource_count inst.now.tables) (capacity_of inst.now.tables m.0)) }
{
    for r in 0..inst.resources() {
        add_more(text, inst.capacity(m, Resource(r)) as u64);
    }
}

/// Adds the safety capacities of a machine, with a space before each.
fn add_safeties<O: Sink>(text: &mut Gathered<'_, O>, inst: &Instance, m: Machine)
    requires { m.0 < machine_count inst.now.tables }
    ensures { AddsText O.taken O.faults text.old text.new
        (spaced (resource_count inst.now.tables) (safety_of inst.now.tables m.0)) }
{
    for r in 0..inst.resources() {
        add_more(text, inst.safety(m, Resource(r)) as u64);
    }
}

/// Adds the costs of a move from a machine to each machine, with a space before each.
fn add_way_costs<O: Sink>(text: &mut Gathered<'_, O>, inst: &Instance, m: Machine)
    requires { m.0 < machine_count inst.now.tables }
    ensures { AddsText O.taken O.faults text.old text.new
        (spaced (machine_count inst.now.tables) (way_cost_of inst.now.tables m.0)) }
{
    add_numbers(text, inst.ways_from(m))
}

/// Adds numbers, with a space before each.
fn add_numbers<O: Sink>(text: &mut Gathered<'_, O>, numbers: &[u32])
    ensures { AddsText O.taken O.faults text.old text.new (numbers_text numbers.now) }
{
    let mut line = Line::new();
    for chunk in numbers.chunks(NUMBERS_AT_ONCE) {
        write_numbers(&mut line, chunk);
        text.add(line.as_slice());
    }
}

/// Empties a line and writes numbers into it, with a space before each.
#[inline(always)]
fn write_numbers(line: &mut Line, numbers: &[u32])
    requires { length numbers.now ≤ NUMBERS_AT_ONCE }
    ensures { line.new ≡ numbers_text numbers.now }
{
    line.clear();
    for i in (0..numbers.len()).rev() {
        line.prepend_marked(b' ', numbers[i] as u64);
    }
}

/// Adds the line of a service.
pub(crate) fn add_service<O: Sink>(text: &mut Gathered<'_, O>, inst: &Instance, s: Service)
    requires { s.0 < service_count inst.now.tables }
    ensures { AddsText O.taken O.faults text.old text.new (service_text inst.now.tables s.0) }
{
    add_digits(text, inst.spread_min(s) as u64);
    add_more(text, inst.depends(s).len() as u64);
    add_needs(text, inst, s);
    text.add(b"\n")
}

/// Adds the services that a service depends on, with a space before each.
fn add_needs<O: Sink>(text: &mut Gathered<'_, O>, inst: &Instance, s: Service)
    requires { s.0 < service_count inst.now.tables }
    ensures { AddsText O.taken O.faults text.old text.new
        (spaced (dependency_count inst.now.tables s.0) (need_of inst.now.tables s.0)) }
{
    let needs = inst.depends(s);
    for k in 0..needs.len() {
        add_more(text, needs[k].0 as u64);
    }
}

/// Adds the line of a process.
pub(crate) fn add_process<O: Sink, L: Ledger>(
    text: &mut Gathered<'_, O>,
    inst: &Instance,
    p: Process,
    steps: &mut Steps<L>,
)
    requires { p.0 < process_count inst.now.tables }
    ensures { AddsText O.taken O.faults text.old text.new (process_text inst.now.tables p.0) }
{
    add_digits(text, inst.service_of(p).0 as u64);
    add_requirements(text, inst, p, steps);
    add_more(text, inst.process_cost(p) as u64);
    text.add(b"\n")
}

/// Adds what a process requires of each resource, with a space before each.
fn add_requirements<O: Sink, L: Ledger>(
    text: &mut Gathered<'_, O>,
    inst: &Instance,
    p: Process,
    steps: &mut Steps<L>,
)
    requires { p.0 < process_count inst.now.tables }
    ensures { AddsText O.taken O.faults text.old text.new
        (spaced (resource_count inst.now.tables) (requirement_of inst.now.tables p.0)) }
{
    for r in 0..inst.resources() {
        add_more(text, inst.requirement(p, Resource(r), steps) as u64);
    }
}

/// Adds the two lines of a balance objective.
pub(crate) fn add_balance<O: Sink>(text: &mut Gathered<'_, O>, inst: &Instance, b: u32)
    requires { b < balance_count inst.now.tables }
    ensures { AddsText O.taken O.faults text.old text.new (balance_text inst.now.tables b) }
{
    let row = inst.balance(b);
    add_three(text, row.first.0, row.second.0, row.target);
    add_one(text, row.weight)
}
