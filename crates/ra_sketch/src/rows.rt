ghost use Rattle.std.specs.Prelude.{◌≡◌, ◌+◌, ◌*◌, ◌<◌, ◌≤◌, length};
ghost use Rattle.ra_model.specs.Numbers.{resource_count, machine_count};

use ra_base::{Fixed, Machine, Resource};
use ra_world::World;

/// The numbers of a machine: one of each kind for each resource.
#[derive(Clone, Copy)]
pub(crate) struct Row<'r> {
    /// What is free.
    pub(crate) free: &'r [u32],
    /// What is free for a process that comes from elsewhere: of a transient resource, what isn't in transient use.
    pub(crate) room: &'r [u32],
    /// By how much the safety capacity is below the capacity: if less is free, that costs.
    pub(crate) reserve: &'r [u32],
    ghost same_room: { length room.now ≡ length free.now },
    ghost same_reserve: { length reserve.now ≡ length free.now },
    ghost few: { length free.now ≤ 20 },
}

impl<'r> Row<'r> {
    /// What is free for a process that comes, to its initial machine or from elsewhere to another one.
    #[inline(always)]
    pub(crate) fn room_for(&self, home: bool) -> &'r [u32]
        ensures { length result.now ≡ length self.now.free.now }
    {
        if home { self.free } else { self.room }
    }
}

/// The numbers of a machine in the table of all machines: three rows for each machine, one after another.
#[inline(always)]
pub(crate) fn row_of(table: &[u32], width: usize, m: Machine) -> Row<'_>
    requires width { width ≤ 20 }
    requires within { m.0 * (3 * width) + 3 * width ≤ length table.now }
    ensures { length result.free.now ≡ width }
{
    let start = m.0 as usize * (3 * width);
    Row {
        free: part_of(table, start, width),
        room: part_of(table, start + width, width),
        reserve: part_of(table, start + 2 * width, width),
    }
}

/// So many numbers of a table from a place on.
#[inline(always)]
fn part_of(table: &[u32], start: usize, width: usize) -> &[u32]
    requires { start + width ≤ length table.now }
    ensures { length result.now ≡ width }
{
    &table[start..start + width]
}

/// Computes the numbers of a machine again.
#[tactic(auto, using(ra_base::proofs::Tables::place_within))]
pub(crate) fn renew_row(world: &World<'_>, m: Machine, table: &mut Fixed<u32>)
    requires machine { m.0 < machine_count world.now.tables }
    requires size { length table.old.items ≡
        machine_count world.now.tables * (3 * resource_count world.now.tables) }
    ensures { length table.new.items ≡ length table.old.items }
{
    let inst = world.instance();
    let width = inst.resources() as usize;
    let start = m.0 as usize * (3 * width);
    let used = world.rows().usage_row(m);
    let between = world.rows().transient_row(m);
    for r in 0..width {
        let resource = Resource(r as u32);
        let capacity = inst.capacity(m, resource);
        let free = left_of(capacity, used[r]);
        let room = if inst.transient(resource) {
            left_of(capacity, between[r])
        } else {
            free
        };
        let reserve = capacity.saturating_sub(inst.safety(m, resource));
        table.set(start + r, free);
        table.set(start + width + r, room);
        table.set(start + 2 * width + r, reserve);
    }
}

/// What is left of a capacity.
#[inline(always)]
fn left_of(capacity: u32, used: u64) -> u32 {
    u64::from(capacity).saturating_sub(used) as u32
}

/// Whether there is room for what a process requires.
#[inline(always)]
pub(crate) fn has_room(room: &[u32], required: &[u32]) -> bool
    requires { length room.now ≤ length required.now }
{
    let mut lacks = false;
    for r in 0..room.len() {
        lacks |= required[r] > room[r];
    }
    !lacks
}

/// Whether two machines have room for what each gets, if one process goes from `here` to `there` and another comes back.
#[inline(always)]
pub(crate) fn have_room(here: &[u32], there: &[u32], required: &[u32], back: &[u32]) -> bool
    requires there { length here.now ≤ length there.now }
    requires required { length here.now ≤ length required.now }
    requires back { length here.now ≤ length back.now }
{
    let mut lacks = false;
    for r in 0..here.len() {
        lacks |= required[r].saturating_sub(back[r]) > there[r];
        lacks |= back[r].saturating_sub(required[r]) > here[r];
    }
    !lacks
}
