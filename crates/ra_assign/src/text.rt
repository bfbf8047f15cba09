ghost use Rattle.std.specs.Prelude.{◌≡◌, ◌+◌, ◌≤◌, ◌++◌, length, decimal, IfOk};
ghost use Rattle.ra_assign.specs.Lists.{assignment_bytes, assigned_text};

use itoa::Buffer;
use ra_base::{Assignment, Fixed, Machine, NoMemory};
use std::alloc::Global;

/// How many bytes the text of one machine has at most: a space and ten digits.
const ROOM_EACH: usize = 11;

/// How many machines have a text whose length fits a `usize`.
const MOST_MACHINES: usize = 1_000_000_000_000;

/// The text of an assignment: the numbers of the machines in order, with one space between two, and LF.
pub fn assignment_text(alloc: Global, a: &Assignment) -> Result<Fixed<u8>, NoMemory>
    ensures { IfOk result (λ text. text.items ≡ assignment_bytes a.now.items) }
{
    let machines = a.as_slice();
    if machines.len() > MOST_MACHINES {
        return Err(NoMemory);
    }
    let mut text = Fixed::make(alloc, machines.len() * ROOM_EACH + 1)?;
    for p in 0..machines.len() {
        push_machine(&mut text, p, machines[p]);
    }
    text.push(b'\n');
    Ok(text)
}

/// Adds the number of machine number `p` of an assignment, and a space before it unless it is the first.
fn push_machine(text: &mut Fixed<u8>, p: usize, machine: Machine)
    requires { length text.old.items + 11 ≤ text.old.room }
    ensures items { text.new.items ≡ text.old.items ++ assigned_text p machine }
    ensures short { length text.new.items ≤ length text.old.items + 11 }
    ensures room { text.new.room ≡ text.old.room }
{
    if p > 0 {
        text.push(b' ');
    }
    push_number(text, machine.0);
}

/// Adds the digits of a number.
fn push_number(text: &mut Fixed<u8>, number: u32)
    requires { length text.old.items + 10 ≤ text.old.room }
    ensures items { text.new.items ≡ text.old.items ++ decimal number }
    ensures short { length text.new.items ≤ length text.old.items + 10 }
    ensures room { text.new.room ≡ text.old.room }
{
    let mut buffer = Buffer::new();
    text.extend_from_slice(buffer.format(number).as_bytes());
}
