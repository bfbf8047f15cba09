//! Reports and summaries of runs on the sample, whole and up to a put that fails.
mod lines;
mod running;
mod sinks;

use ra_io::MemorySink;
use ra_report::WriteFault;
use running::{Written, write_words};
use sinks::{long_sink, sink, sound};
use std::alloc::{AllocError, Global};
use std::process::Abort;
use std::sync::Wait;
use std::test::Fail;
use std::thread::Threads;
use test_samples::sample;

/// Writes what is told of a run on the sample from its start.
fn write_on_sample<R: Abort + Threads + Wait + Sync>(
    rt: &R,
    alloc: Global,
    words: &[&str],
    told: Written,
    out: &mut MemorySink,
) -> Result<(), WriteFault> {
    let inst = sample(alloc).expect(rt, "no instance");
    let ended = write_words(rt, alloc, &inst, &[0, 3, 0], words, told, out);
    drop(inst);
    ended
}

/// Process 1 would stay, goes from machine 3 to 2, and would then change places with itself.
const ONE_DONE: &[&str] = &[
    "solve",
    "m",
    "i",
    "--draws",
    "1",
    "w:0,1,3,3,3,3,0,0,0,1,2,1,0,3,0,0,5,1,1,1,1,1,0,0",
];

#[test]
fn the_summary_of_one_done_and_two_refused(rt: HostRuntime) -> Result<(), Fail> {
    let mut out = sound(&rt)?;
    assert_eq!(rt;
        write_on_sample(&rt, rt.alloc(), ONE_DONE, Written::Summary, &mut out),
        Ok(())
    );
    assert_eq!(rt;
        out.bytes(),
        b"cost 3510\nload 1500\nbalance 1700\nprocess 100\nservice 10\nmachine 200\nbound 1300\nbest_at 2\ndone 1\nrefused 2\n".as_slice()
    );
    Ok(())
}

#[test]
fn a_report_with_no_entry_has_ten_lines(rt: HostRuntime) -> Result<(), Fail> {
    let mut out = sound(&rt)?;
    let words = ["solve", "m", "i", "--draws", "2", "7:0"];
    assert_eq!(rt;
        write_on_sample(&rt, rt.alloc(), words.as_slice(), Written::Report, &mut out),
        Ok(())
    );
    assert_eq!(rt;
        out.bytes(),
        b"cost 4200\nload 1700\nbalance 2500\nprocess 0\nservice 0\nmachine 0\nbound 1300\nbest_at 0\nassignment 0 3 0\ndraws 2\n".as_slice()
    );
    Ok(())
}

#[test]
fn a_failed_put_ends_the_report(rt: HostRuntime) -> Result<(), Fail> {
    let mut out = sink(&rt, 28, 2)?;
    assert_eq!(rt;
        write_on_sample(&rt, rt.alloc(), ONE_DONE, Written::Report, &mut out),
        Err(WriteFault::Put)
    );
    assert_eq!(rt;
        out.bytes(),
        b"cost 3510\nload 1500\nbalance 1700\nprocess 100\nservice 10\n".as_slice()
    );
    Ok(())
}

/// The word of 500 proposals that put process 1 where it is.
fn five_hundred(alloc: Global) -> Result<String, AllocError> {
    let mut word = String::from_str(alloc, "w:0,1,3,3,3,3,0,0")?;
    for _ in 1..500 {
        word.push_str(",0,1,3,3,3,3,0,0")?;
    }
    Ok(word)
}

/// Ten lines of 109 bytes in all, and 500 of 35, 38 or 41, are put in three pieces at most.
#[test]
fn a_long_text_is_put_in_few_pieces(rt: HostRuntime) -> Result<(), Fail> {
    let mut out = sink(&rt, 30_000, 3)?;
    let word = five_hundred(rt.alloc())?;
    let words = ["solve", "m", "i", "--draws", "1", word.as_str()];
    assert_eq!(rt;
        write_on_sample(&rt, rt.alloc(), words.as_slice(), Written::Report, &mut out),
        Ok(())
    );
    assert_eq!(rt; out.bytes().len(), 109 + 10 * 35 + 90 * 38 + 400 * 41);
    Ok(())
}

/// Words of 20,000 proposals of one worker.
const LONG: &[&str] = &["solve", "m", "i", "7:20000"];

/// One desk writes the lines of 4,096 entries at a time, three write 12,288, and sixteen have some to spare.
#[test]
fn desks_write_the_report_that_one_thread_writes(rt: HostRuntime) -> Result<(), Fail> {
    let mut out = long_sink(&rt, 1_000_000)?;
    assert_eq!(rt;
        write_on_sample(&rt, rt.alloc(), LONG, Written::Report, &mut out),
        Ok(())
    );
    for number in [1, 3, 16] {
        let mut other = long_sink(&rt, 1_000_000)?;
        let told = Written::ReportAt(number);
        assert_eq!(rt;
            write_on_sample(&rt, rt.alloc(), LONG, told, &mut other),
            Ok(())
        );
        assert!(rt; other.bytes() == out.bytes());
    }
    Ok(())
}

/// The head is put first, and then the lines of a desk each time.
#[test]
fn a_failed_put_of_a_desk_ends_the_report(rt: HostRuntime) -> Result<(), Fail> {
    let mut whole = long_sink(&rt, 1_000_000)?;
    assert_eq!(rt;
        write_on_sample(&rt, rt.alloc(), LONG, Written::Report, &mut whole),
        Ok(())
    );
    let mut out = long_sink(&rt, 3)?;
    let told = Written::ReportAt(3);
    assert_eq!(rt;
        write_on_sample(&rt, rt.alloc(), LONG, told, &mut out),
        Err(WriteFault::Put)
    );
    assert!(rt; whole.bytes().starts_with(out.bytes()));
    assert!(rt; out.bytes().len() > 100_000 && out.bytes().len() < 500_000);
    Ok(())
}
