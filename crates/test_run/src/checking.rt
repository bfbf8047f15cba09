//! A check over files and sinks that never fail.
use super::texts::SAMPLE;
use ra_base::Name;
use ra_io::{CountSink, SteadyFiles};
use ra_jobs::{Status, check_steady};
use std::test::Fail;

/// All other calls are tested by the conformance suite, `cases`.
#[test]
fn a_check_of_files_in_memory_is_done(rt: HostRuntime) -> Result<(), Fail> {
    let mut files = SteadyFiles::make(rt.alloc())?;
    files.add(rt.alloc(), "m", SAMPLE)?;
    files.add(rt.alloc(), "i", b"0 3 0")?;
    files.add(rt.alloc(), "n", b"0 2 0")?;
    let model = Name::make(rt.alloc(), "m")?;
    let initial = Name::make(rt.alloc(), "i")?;
    let new = Name::make(rt.alloc(), "n")?;
    let mut out = CountSink::make();
    let mut err = CountSink::make();
    let status = check_steady(
        rt.alloc(),
        &model,
        &initial,
        &new,
        None,
        &mut files,
        &mut out,
        &mut err,
    );
    assert!(rt; status == Status::Done);
    assert_eq!(rt; out.count(), 68);
    assert_eq!(rt; err.count(), 0);
    Ok(())
}
