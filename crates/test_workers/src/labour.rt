mod scribes;

use scribes::{count_by, written};
use std::test::Fail;

#[test]
fn two_workers_write_a_hundred_lines_each(rt: HostRuntime) -> Result<(), Fail> {
    let owners = [7, 8];
    let pad = written(&rt, rt.alloc(), owners.as_slice(), 100).ok_or("memory")?;
    assert_eq!(rt; pad.lines.len(), 200);
    for by in 0..2 {
        assert_eq!(rt; count_by(pad.lines.as_slice(), by), 100);
    }
    Ok(())
}
