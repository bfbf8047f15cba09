//! The lines of entries, of a bound and of a model, each alone.
use super::super::texts::SAMPLE;
use super::sinks::sound;
use ra_base::{Cause, Machine, Process, Resource, Service};
use ra_bounds::Bound;
use ra_io::MemorySink;
use ra_journal::Entry;
use ra_model_text::write_model;
use ra_moves::{Move, Step, Verdict};
use ra_report::{
    Fault, Front, WriteFault, is_entry_line, read_front, write_accepted, write_bound, write_entry,
    write_fault,
};
use std::test::Fail;
use test_samples::sample;

fn step(process: u32, from: u32, to: u32) -> Step {
    Step {
        process: Process(process),
        from: Machine(from),
        to: Machine(to),
    }
}

/// Entry `k` of the only worker.
fn entry(k: u64, mv: Move, verdict: Verdict) -> Entry {
    Entry {
        worker: 0,
        k,
        q: k,
        mv,
        verdict,
    }
}

/// A shift that is refused.
fn refused(k: u64, cause: Cause) -> Entry {
    entry(k, Move::shift(step(1, 3, 2)), Verdict::Refused { cause })
}

/// Writes the lines of entries alone.
fn write_entries(out: &mut MemorySink, entries: &[Entry]) -> Result<(), WriteFault> {
    for place in 0..entries.len() {
        write_entry(out, place as u64, &entries[place])?;
    }
    Ok(())
}

#[test]
fn lines_of_each_kind_of_move(rt: HostRuntime) -> Result<(), Fail> {
    let entries = [
        entry(
            0,
            Move::swap(step(0, 0, 3), step(1, 3, 0)),
            Verdict::Done { cost: 4200 },
        ),
        Entry {
            worker: 4_294_967_295,
            k: 18_446_744_073_709_551_615,
            q: 0,
            mv: Move::chain(step(10, 1, 2), step(20, 2, 3), step(30, 3, 4)),
            verdict: Verdict::Done {
                cost: 340_282_366_920_938_463_463_374_607_431_768_211_455,
            },
        },
    ];
    let mut out = sound(&rt)?;
    assert_eq!(rt; write_entries(&mut out, &entries), Ok(()));
    assert_eq!(rt;
        out.bytes(),
        b"0 0 0 0 swap 0:0>3 1:3>0 done 4200\n1 4294967295 18446744073709551615 0 chain 10:1>2 20:2>3 30:3>4 done 340282366920938463463374607431768211455\n".as_slice()
    );
    Ok(())
}

/// A refused entry for each cause.
fn all_refused() -> [Entry; 9] {
    let (process, machine) = (Process(1), Machine(2));
    let (resource, service) = (Resource(3), Service(4));
    [
        refused(0, Cause::Repeat { process }),
        refused(1, Cause::Same { process }),
        refused(
            2,
            Cause::Capacity {
                machine,
                resource,
                used: 12,
                cap: 10,
            },
        ),
        refused(
            3,
            Cause::Transient {
                machine,
                resource,
                used: 12,
                cap: 10,
            },
        ),
        refused(4, Cause::Conflict { service, machine }),
        refused(
            5,
            Cause::Spread {
                service,
                has: 1,
                wants: 2,
            },
        ),
        refused(
            6,
            Cause::Dependency {
                service,
                needs: Service(5),
                neighbourhood: 7,
            },
        ),
        refused(
            7,
            Cause::Rise {
                before: 10,
                after: 20,
                allowed: 5,
            },
        ),
        refused(8, Cause::Closed { process, machine }),
    ]
}

#[test]
fn lines_of_each_cause(rt: HostRuntime) -> Result<(), Fail> {
    let mut out = sound(&rt)?;
    assert_eq!(rt; write_entries(&mut out, &all_refused()), Ok(()));
    assert_eq!(rt;
        out.bytes(),
        b"0 0 0 0 shift 1:3>2 refused repeat 1\n1 0 1 1 shift 1:3>2 refused same 1\n2 0 2 2 shift 1:3>2 refused capacity 2 3 12 10\n3 0 3 3 shift 1:3>2 refused transient 2 3 12 10\n4 0 4 4 shift 1:3>2 refused conflict 4 2\n5 0 5 5 shift 1:3>2 refused spread 4 1 2\n6 0 6 6 shift 1:3>2 refused dependency 4 5 7\n7 0 7 7 shift 1:3>2 refused rise 10 20 5\n8 0 8 8 shift 1:3>2 refused closed 1 2\n".as_slice()
    );
    Ok(())
}

#[test]
fn the_lines_of_a_bound(rt: HostRuntime) -> Result<(), Fail> {
    let mut out = sound(&rt)?;
    let bound = Bound {
        load: 1300,
        balance: 10,
        total: 1310,
    };
    assert_eq!(rt; write_bound(&mut out, &bound), Ok(()));
    assert_eq!(rt;
        out.bytes(),
        b"bound 1310\nload 1300\nbalance 10\n".as_slice()
    );
    Ok(())
}

#[test]
fn lines_alone(rt: HostRuntime) -> Result<(), Fail> {
    let done = entry(0, Move::shift(step(1, 3, 2)), Verdict::Done { cost: 3510 });
    let line = b"7 0 0 0 shift 1:3>2 done 3510\n";
    let mut out = sound(&rt)?;
    assert_eq!(rt; write_entry(&mut out, 7, &done), Ok(()));
    assert_eq!(rt; out.bytes(), line.as_slice());
    assert!(rt; is_entry_line(line, 7, &done));
    assert!(rt; !is_entry_line(line, 8, &done));
    let other = b"7 0 0 0 shift 1:3>2 done 3511\n";
    assert!(rt; !is_entry_line(other, 7, &done));
    assert_eq!(rt;
        read_front(b"41 3 2 40 swap 0:0>3 1:3>0 done 4200\n"),
        Some(Front { worker: 3, q: 40 })
    );
    assert_eq!(rt; read_front(b"41"), None);
    let mut out = sound(&rt)?;
    assert_eq!(rt; write_accepted(&mut out, 20_000), Ok(()));
    assert_eq!(rt; write_fault(&mut out, &Fault::Wrong { line: 11 }), Ok(()));
    assert_eq!(rt; out.bytes(), b"accepted 20000\nwrong line 11\n".as_slice());
    Ok(())
}

#[test]
fn the_text_of_the_sample_is_its_model_file(rt: HostRuntime) -> Result<(), Fail> {
    let mut out = sound(&rt)?;
    let inst = sample(rt.alloc()).expect(&rt, "no instance");
    let ended = write_model(&mut out, &inst);
    drop(inst);
    assert_eq!(rt; ended, Ok(()));
    assert_eq!(rt; out.bytes(), SAMPLE);
    Ok(())
}
