ghost use Rattle.std.specs.Prelude.{◌≡◌, ℕ, List, [], Option, IfOk};
ghost use Rattle.ra_bounds.specs.PinnedBounds.{pinned_bound_of};
ghost use Rattle.ra_io.specs.Outside.{reading};
ghost use Rattle.ra_model.specs.Assignments.{IsAssignment};
ghost use Rattle.ra_journal.specs.Openings.{opening};
ghost use Rattle.ra_token.specs.Reading.{Reads};
ghost use Rattle.ra_topology.specs.Starts.{IsFeasibleStart};
ghost use Rattle.ra_verify.specs.Verdicts.{TellsVerdict};

use crate::checker::Checker;
use crate::checking::check;
use crate::faults::VerifyFault;
use crate::head::HEAD_BYTES;
use ra_base::{Assignment, Fixed, NoMemory, Parts};
use ra_bounds::{Bound, pinned_bound};
use ra_draws::Lots;
use ra_io::Files;
use ra_model::Instance;
use ra_pins::Pins;
use ra_report::LONGEST_LINE;
use ra_token::LineReader;
use ra_topology::Topology;
use ra_world::World;
use std::alloc::Global;

/// Checks the report `name` of a run with these lots from an initial assignment that is feasible, whose cost has these
/// parts: whether it is the report of a legal whole journal, byte by byte. The answer is the number of its entries. All
/// memory is taken before the first byte is read.
///
/// # Errors
///
/// `Wrong` tells its wrong line; `ReadFault` comes only if the count of faults of the file rose.
pub fn verify<'a, F: Files>(
    alloc: Global,
    files: &mut F,
    name: &str,
    inst: &'a Instance,
    topo: &'a Topology,
    a0: &'a Assignment,
    start: Parts,
    lots: &'a Lots,
) -> Result<u64, VerifyFault>
    requires { IsFeasibleStart inst.now.tables topo.now a0.now.items start }
    ensures { TellsVerdict (opening inst.now.tables a0.now.items lots.now)
        (reading F.Files files.old files.new) name.now result }
{
    let bound = bound_from(alloc, inst, a0)?;
    let mut checker = Checker::make(alloc, inst, topo, a0, start, lots)?;
    let mut world = World::make(alloc, inst, topo, a0, start)?;
    let mut room = room_for(alloc, name)?;
    check(
        files,
        &mut room.reader,
        &mut room.head,
        &mut room.line,
        &mut checker,
        &mut world,
        &bound,
    )
}

/// What a report is read with: its reader, and room for its first lines and for one further line.
#[derive(Drop)]
struct Room {
    reader: LineReader,
    head: Fixed<u8>,
    line: Fixed<u8>,
}

/// What the report `name` is read with, before its first byte.
fn room_for(alloc: Global, name: &str) -> Result<Room, NoMemory>
    ensures name { IfOk result (λ room. room.reader.name ≡ name.now) }
    ensures reads { IfOk result (λ room. (told : Option (List ℕ)) → Reads told room.reader) }
    ensures start { IfOk result (λ room. room.reader.place ≡ 0) }
    ensures empty { IfOk result (λ room. room.head.items ≡ []) }
    ensures head { IfOk result (λ room. room.head.room ≡ HEAD_BYTES) }
    ensures line { IfOk result (λ room. room.line.room ≡ LONGEST_LINE) }
{
    let head = Fixed::make(alloc, HEAD_BYTES)?;
    let line = Fixed::make(alloc, LONGEST_LINE)?;
    let reader = LineReader::make(alloc, name)?;
    Ok(Room { reader, head, line })
}

/// The bound of an instance and a start.
fn bound_from(alloc: Global, inst: &Instance, a0: &Assignment) -> Result<Bound, NoMemory>
    requires fits { IsAssignment inst.now.tables a0.now.items }
    ensures { IfOk result (λ b. b ≡ pinned_bound_of inst.now.tables a0.now.items) }
{
    let pins = Pins::make(alloc, inst, a0)?;
    Ok(pinned_bound(inst, &pins))
}
