mod each;
mod instances;
mod limits;
mod plans;
mod trials;
mod walking;
mod weighing;
mod worlds;

use instances::busy;
use limits::{costs_near_the_bound, many_machines, odd_objectives, sums_at_the_cap};
use ra_base::Fixed;
use ra_model::Instance;
use std::process::Abort;
use test_samples::{eight_machines, list, pair_at_limits, sample, seven_processes};
use trials::{Trial, try_on};

#[test]
fn the_sample(rt: HostRuntime) {
    let trials = [
        Trial::Plans {
            proposals: 300,
            least: 20,
        },
        Trial::ComingHome,
        Trial::Weighing,
    ];
    let inst = sample(rt.alloc()).expect(&rt, "no instance");
    try_on(&rt, rt.alloc(), inst, &[0, 3, 0], &trials);
}

#[test]
fn far_labels(rt: HostRuntime) {
    let trials = [
        Trial::Plans {
            proposals: 300,
            least: 20,
        },
        Trial::Telling,
    ];
    let inst = seven_processes(rt.alloc()).expect(&rt, "no instance");
    try_on(&rt, rt.alloc(), inst, &[0, 0, 1, 3, 3, 4, 1], &trials);
}

#[test]
fn eight_machines_with_plans(rt: HostRuntime) {
    let trials = [Trial::Plans {
        proposals: 300,
        least: 20,
    }];
    let inst = eight_machines(rt.alloc()).expect(&rt, "no instance");
    try_on(&rt, rt.alloc(), inst, &[0, 1, 2, 3, 4, 5], &trials);
}

/// The instance with these machines closed.
fn closing(rt: &impl Abort, inst: Instance, flags: Fixed<bool>) -> Instance {
    assert!(rt; flags.len() == inst.machines() as usize);
    inst.closing(flags)
}

#[test]
fn far_labels_with_a_closed_machine(rt: HostRuntime) {
    let flags = list(rt.alloc(), &[false, false, true, false, false]).expect(&rt, "no memory");
    let inst = seven_processes(rt.alloc()).expect(&rt, "no instance");
    let closed = closing(&rt, inst, flags);
    let trials = [Trial::Plans {
        proposals: 300,
        least: 20,
    }];
    try_on(&rt, rt.alloc(), closed, &[0, 0, 1, 3, 3, 4, 1], &trials);
}

// Two processes that fill a machine each can only be swapped, and the swap costs more than any allowance: no plan is
// done.
#[test]
fn the_greatest_numbers(rt: HostRuntime) {
    let trials = [Trial::Plans {
        proposals: 300,
        least: 0,
    }];
    let inst = pair_at_limits(rt.alloc()).expect(&rt, "no instance");
    try_on(&rt, rt.alloc(), inst, &[0, 1], &trials);
}

// The closed machine is the initial one of a process.
#[test]
fn coming_home_to_a_closed_machine(rt: HostRuntime) {
    let flags = list(rt.alloc(), &[false, false, false, false, true]).expect(&rt, "no memory");
    let inst = busy(rt.alloc()).expect(&rt, "no instance");
    let closed = closing(&rt, inst, flags);
    let trials = [Trial::Plans {
        proposals: 300,
        least: 1,
    }];
    try_on(&rt, rt.alloc(), closed, &[0, 2, 3, 0, 4, 1, 3, 2], &trials);
}

#[test]
fn a_world_tells_what_a_check_from_scratch_does(rt: HostRuntime) {
    let inst = busy(rt.alloc()).expect(&rt, "no instance");
    try_on(
        &rt,
        rt.alloc(),
        inst,
        &[0, 2, 3, 0, 4, 1, 3, 2],
        &[Trial::Telling],
    );
}

#[test]
fn a_world_with_a_closed_machine_tells_it_too(rt: HostRuntime) {
    let flags = list(rt.alloc(), &[false, false, false, false, true]).expect(&rt, "no memory");
    let inst = busy(rt.alloc()).expect(&rt, "no instance");
    let closed = closing(&rt, inst, flags);
    try_on(
        &rt,
        rt.alloc(),
        closed,
        &[0, 2, 3, 0, 4, 1, 3, 2],
        &[Trial::Telling],
    );
}

// What processes ask for adds up to 2^30 and to one more, and ways cost as much, so that sums reach the cap.
#[test]
fn sums_up_to_the_cap_and_above(rt: HostRuntime) {
    let trials = [Trial::Plans {
        proposals: 300,
        least: 20,
    }];
    let inst = sums_at_the_cap(rt.alloc()).expect(&rt, "no instance");
    try_on(&rt, rt.alloc(), inst, &[0, 1, 2, 3, 4, 2], &trials);
}

#[test]
fn costs_below_the_bound_and_above(rt: HostRuntime) {
    let trials = [Trial::Plans {
        proposals: 300,
        least: 20,
    }];
    let inst = costs_near_the_bound(rt.alloc()).expect(&rt, "no instance");
    try_on(&rt, rt.alloc(), inst, &[0, 1, 2, 3], &trials);
}

#[test]
fn one_resource_twice_and_targets_of_zero(rt: HostRuntime) {
    let trials = [Trial::Plans {
        proposals: 300,
        least: 20,
    }];
    let inst = odd_objectives(rt.alloc()).expect(&rt, "no instance");
    try_on(&rt, rt.alloc(), inst, &[0, 1, 2, 0, 1], &trials);
}

// Processes leave a machine that is closed, and may come home to it, but no other may go there.
#[test]
fn the_initial_machine_is_closed(rt: HostRuntime) {
    let flags = list(rt.alloc(), &[true, false, false, false, true]).expect(&rt, "no memory");
    let inst = busy(rt.alloc()).expect(&rt, "no instance");
    let closed = closing(&rt, inst, flags);
    let trials = [Trial::Plans {
        proposals: 300,
        least: 20,
    }];
    try_on(&rt, rt.alloc(), closed, &[0, 2, 3, 0, 4, 1, 3, 2], &trials);
}

// With one machine fewer than a window has, with as many, and with one more: the window begins anywhere and goes on at
// machine 0.
#[test]
fn a_window_of_machines_goes_round(rt: HostRuntime) {
    let trials = [Trial::Plans {
        proposals: 12,
        least: 3,
    }];
    for count in 63usize..66 {
        let inst = many_machines(rt.alloc(), count).expect(&rt, "no instance");
        try_on(&rt, rt.alloc(), inst, &[0, 31, 62, 5, 7, 40, 61], &trials);
    }
}

// Chains and swaps of each form, on machines that are nearly full, with services that have to be spread and near.
#[test]
fn each_chain_and_each_swap(rt: HostRuntime) {
    let inst = busy(rt.alloc()).expect(&rt, "no instance");
    try_on(
        &rt,
        rt.alloc(),
        inst,
        &[0, 2, 3, 0, 4, 1, 3, 2],
        &[Trial::EachMove],
    );
}

#[test]
fn each_chain_and_each_swap_with_far_labels(rt: HostRuntime) {
    let flags = list(rt.alloc(), &[false, false, true, false, false]).expect(&rt, "no memory");
    let inst = seven_processes(rt.alloc()).expect(&rt, "no instance");
    let closed = closing(&rt, inst, flags);
    try_on(
        &rt,
        rt.alloc(),
        closed,
        &[0, 0, 1, 3, 3, 4, 1],
        &[Trial::EachMove],
    );
}
