//! The texts of trial instances.
use super::files::steady;
use super::found::same;
use ra_assign::read_assignment;
use ra_base::Assignment;
use ra_model::Instance;
use ra_model_read::read_model;
use ra_trial::{TrialText, trial_text};
use std::process::Abort;

/// A sum of bytes that tells texts apart: FNV-1a of 64 bits.
fn told(text: &[u8]) -> u64 {
    let mut sum: u64 = 0xcbf2_9ce4_8422_2325;
    for byte in text {
        sum = (sum ^ *byte as u64).wrapping_mul(0x0100_0000_01b3);
    }
    sum
}

/// Numbers of trials, each with the number of its model's bytes and what tells them. The values come from the
/// definitions rewritten in Python, over xoshiro256++ with its state filled by splitmix64.
const MODELS: &[(u64, usize, u64)] = &[
    (0, 42_192, 0x658a_1ad3_d4cc_ebde),
    (1, 42_208, 0x7c33_b576_8d40_7e18),
    (u64::MAX, 42_160, 0xba0f_ffc4_6a10_0c95),
];

#[test]
fn the_texts_are_those_of_the_definitions(rt: HostRuntime) {
    for row in MODELS {
        let text = trial_text(rt.alloc(), row.0).expect(&rt, "no memory");
        same(&rt, text.model.len(), row.1);
        same(&rt, told(text.model.as_slice()), row.2);
        same(&rt, text.start.len(), 2_900);
        drop(text);
    }
}

/// Demands how the texts of the trial of 1 begin and end.
fn demand_ends(rt: &impl Abort, text: &TrialText) {
    let model = text.model.as_slice();
    let first = b"4\n1 10\n0 10\n0 10\n0 10\n100\n0 0 568 750 736 809 426 562 552 606 0 2 3 4 5 1 ";
    same(rt, model.starts_with(first), true);
    let last = b"\n249 58 85 77 17 5\n1\n0 1 2\n10\n1 10 100\n";
    same(rt, model.ends_with(last), true);
    let start = text.start.as_slice();
    same(rt, start.starts_with(b"0 1 2 3 4 5 6 7 8 9 10 "), true);
    same(rt, start.ends_with(b" 97 98 99\n"), true);
}

#[test]
fn the_first_lines_of_a_model_are_known(rt: HostRuntime) {
    let text = trial_text(rt.alloc(), 1).expect(&rt, "no memory");
    demand_ends(&rt, &text);
    drop(text);
}

fn lists_are_read(rt: &impl Abort, inst: &Instance, start: &Assignment) {
    same(rt, inst.machines(), 100);
    same(rt, inst.services(), 250);
    same(rt, inst.processes(), 1_000);
    same(rt, start.len(), 1_000);
}

#[test]
fn the_texts_are_read(rt: HostRuntime) {
    let text = trial_text(rt.alloc(), 1).expect(&rt, "no memory");
    let mut files = steady(rt.alloc(), "model", text.model.as_slice()).expect(&rt, "no memory");
    files
        .add(rt.alloc(), "start", text.start.as_slice())
        .expect(&rt, "no memory");
    drop(text);
    let inst = read_model(rt.alloc(), &mut files, "model").expect(&rt, "no model");
    let start = read_assignment(rt.alloc(), &mut files, "start", &inst).expect(&rt, "no start");
    lists_are_read(&rt, &inst, &start);
    drop(inst);
}
