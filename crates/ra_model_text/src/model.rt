ghost use Rattle.std.specs.Prelude.{◌≡◌, ◌<◌, ◌≤◌, OnOk, OnErr};
ghost use Rattle.std.specs.Io.KnownBytes.{Appends};
ghost use Rattle.ra_model.specs.Numbers.{resource_count, machine_count, service_count, process_count, balance_count};
ghost use Rattle.ra_model_text.specs.ModelTexts.{group_text, resource_text, machine_text, service_text, process_text, balance_text, model_text};
ghost use Rattle.ra_report.specs.Gathering.{AddsText};
ghost use Rattle.ra_report.specs.Pieces.{BreaksOff};

use crate::lines::{
    add_balance, add_machine, add_one, add_process, add_resource, add_service, add_three,
};
use ra_base::{Machine, Process, Resource, Service, Steps};
use ra_io::Sink;
use ra_model::Instance;
use ra_report::{Gathered, WriteFault};
use std::marker::Brand;
use std::sync::ledger::{Blank, Ledger};

/// Writes the text of an instance: the lines of a model file that means the instance, with no machine closed.
pub fn write_model<O: Sink>(sink: &mut O, inst: &Instance) -> Result<(), WriteFault>
    ensures whole { OnOk result (Appends (O.taken sink.old) (O.taken sink.new)
        (model_text inst.now.tables)) }
    ensures part { OnErr result (BreaksOff (O.taken sink.old) (O.taken sink.new) (O.faults sink.old)
        (O.faults sink.new) (model_text inst.now.tables)) }
    ensures never_falls { O.faults sink.old ≤ O.faults sink.new }
{
    let mut text = Gathered::make(sink);
    add_model(&mut text, inst);
    text.finish()
}

/// Adds the text of an instance.
pub fn add_model<O: Sink>(text: &mut Gathered<'_, O>, inst: &Instance)
    ensures { AddsText O.taken O.faults text.old text.new (model_text inst.now.tables) }
{
    add_resources(text, inst);
    add_machines(text, inst);
    add_services(text, inst);
    add_processes::<O, Brand>(text, inst, Blank::new(1));
    add_balances(text, inst);
    add_three(
        text,
        inst.process_weight(),
        inst.service_weight(),
        inst.machine_weight(),
    )
}

/// Adds the count of resources and the line of each.
fn add_resources<O: Sink>(text: &mut Gathered<'_, O>, inst: &Instance)
    ensures { AddsText O.taken O.faults text.old text.new
        (group_text (resource_count inst.now.tables) (resource_text inst.now.tables)) }
{
    add_one(text, inst.resources());
    for r in 0..inst.resources() {
        add_resource(text, inst, Resource(r));
    }
}

/// Adds the count of machines and the line of each.
fn add_machines<O: Sink>(text: &mut Gathered<'_, O>, inst: &Instance)
    ensures { AddsText O.taken O.faults text.old text.new
        (group_text (machine_count inst.now.tables) (machine_text inst.now.tables)) }
{
    add_one(text, inst.machines());
    for m in 0..inst.machines() {
        add_machine(text, inst, Machine(m));
    }
}

/// Adds the count of services and the line of each.
fn add_services<O: Sink>(text: &mut Gathered<'_, O>, inst: &Instance)
    ensures { AddsText O.taken O.faults text.old text.new
        (group_text (service_count inst.now.tables) (service_text inst.now.tables)) }
{
    add_one(text, inst.services());
    for s in 0..inst.services() {
        add_service(text, inst, Service(s));
    }
}

/// Adds the count of processes and the line of each.
fn add_processes<O: Sink, L: Ledger>(text: &mut Gathered<'_, O>, inst: &Instance, blank: Blank)
    requires name { blank.name ≡ L.name }
    requires parts { blank.parts ≡ L.parts }
    requires some { 0 < blank.parts }
    ensures { AddsText O.taken O.faults text.old text.new
        (group_text (process_count inst.now.tables) (process_text inst.now.tables)) }
{
    let mut steps = Steps::<L>::make(blank);
    add_one(text, inst.processes());
    for p in 0..inst.processes() {
        add_process(text, inst, Process(p), &mut steps);
    }
}

/// Adds the count of balance objectives and the two lines of each.
fn add_balances<O: Sink>(text: &mut Gathered<'_, O>, inst: &Instance)
    ensures { AddsText O.taken O.faults text.old text.new
        (group_text (balance_count inst.now.tables) (balance_text inst.now.tables)) }
{
    add_one(text, inst.balances());
    for b in 0..inst.balances() {
        add_balance(text, inst, b);
    }
}
