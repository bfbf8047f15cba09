//! Lists of a reserved room, names, guards and the counter.
ghost use Rattle.std.specs.Prelude.{◌≡◌, ◌<◌};

use super::found::same;
use ra_base::{Assignment, Fixed, Guard, Machine, Name, Service, Steps};
use std::marker::Brand;
use std::sync::ledger::{Blank, Ledger};

#[test]
fn a_fixed_list_keeps_its_items_in_order(rt: HostRuntime) {
    let mut list: Assignment = Fixed::make(rt.alloc(), 3).expect(&rt, "no memory");
    same(&rt, list.room(), 3);
    list.push(Machine(7));
    list.push(Machine(8));
    list.set(0, Machine(9));
    same(&rt, list.get(1), Machine(8));
    same(&rt, list.as_slice(), &[Machine(9), Machine(8)]);
    list.clear();
    list.extend_from_slice(&[Machine(1), Machine(2)]);
    same(&rt, list.as_slice(), &[Machine(1), Machine(2)]);
    list.clear();
    same(&rt, list.len(), 0);
    same(&rt, list.room(), 3);
    drop(list);
}

#[test]
fn a_name_is_its_text(rt: HostRuntime) {
    let name = Name::make(rt.alloc(), "model.txt").expect(&rt, "no memory");
    same(&rt, name.as_str(), "model.txt");
    drop(name);
}

#[test]
fn machines_come_before_services(rt: HostRuntime) {
    assert!(rt; Guard::Machine(Machine(5)) < Guard::Service(Service(0)));
    assert!(rt; Guard::Machine(Machine(5)) < Guard::Machine(Machine(6)));
    assert!(rt; Guard::Service(Service(1)) > Guard::Service(Service(0)));
}

fn two_ticks<L: Ledger>(blank: Blank)
    requires name { blank.name ≡ L.name }
    requires parts { blank.parts ≡ L.parts }
    requires some { 0 < blank.parts }
{
    let mut steps = Steps::<L>::make(blank);
    steps.tick();
    steps.tick();
}

#[test]
fn a_counter_starts_over_a_new_ledger(rt: HostRuntime) {
    two_ticks::<Brand>(Blank::new(1));
    same(&rt, size_of_counter(), 0);
}

fn size_of_counter() -> usize {
    std::mem::size_of::<Steps<Brand>>()
}
