//! Edits that are read, and the first refusal.
use super::files::steady;
use super::found::same;
use ra_base::{Machine, Service};
use ra_edit_read::{Edit, Edits, EditsFault, read_edits};
use std::alloc::Global;
use std::process::Abort;
use test_samples::sample;

/// What is read of a file that has these bytes, for the sample.
fn read(rt: &impl Abort, alloc: Global, bytes: &[u8]) -> Result<Edits, EditsFault> {
    let inst = sample(alloc).expect(rt, "no instance");
    let mut files = steady(alloc, "edits", bytes).expect(rt, "no memory");
    read_edits(alloc, &mut files, "edits", &inst)
}

/// Demands an addition, a retirement and a new size.
fn demand_order(rt: &impl Abort, edits: &Edits) {
    assert!(rt; edits.len() == 3);
    let added = Edit::Add {
        service: Service(1),
        machine: Machine(2),
        move_cost: 5,
    };
    same(rt, edits.edit(0), added);
    same(rt, edits.requirements_of(0), [3, 10].as_slice());
    same(rt, edits.edit(1), Edit::Retire { process: 1 });
    same(rt, edits.edit(2), Edit::Resize { process: 3 });
    same(rt, edits.requirements_of(2), [6, 11].as_slice());
}

#[test]
fn edits_are_read_in_order(rt: HostRuntime) {
    let edits = read(&rt, rt.alloc(), b"1 1 2 3 10 5 2 1 3 3 6 11").expect(&rt, "refused");
    demand_order(&rt, &edits);
    drop(edits);
}

/// Files that have no valid edits of the sample, with the first thing that is wrong with each.
const REFUSED: &[(&str, EditsFault)] = &[
    (
        "2 0 4 x",
        EditsFault::Range {
            at: 4,
            value: 4,
            least: 1,
            most: 3,
        },
    ),
    (
        "1 0 4",
        EditsFault::Range {
            at: 4,
            value: 4,
            least: 0,
            most: 3,
        },
    ),
    ("2 0 3 1 7", EditsFault::Missing { edit: 1 }),
];

#[test]
fn the_first_refusal_is_told(rt: HostRuntime) {
    for row in REFUSED {
        let found = read(&rt, rt.alloc(), row.0.as_bytes()).err();
        same(&rt, found, Some(row.1));
    }
}
