//! Files with one name, which the readers borrow.
ghost use Rattle.std.specs.Prelude.{◌<◌};

use ra_base::NoMemory;
use ra_io::{MemoryFiles, SteadyFiles};
use std::alloc::Global;
use test_samples::list;

/// Files that hold these bytes under a name, and whose fetches never fail.
pub(super) fn steady(alloc: Global, name: &str, bytes: &[u8]) -> Result<SteadyFiles, NoMemory> {
    let mut files = SteadyFiles::make(alloc)?;
    files.add(alloc, name, bytes)?;
    Ok(files)
}

/// Files that hold these bytes under a name, give at most `each` of them at once, and fail at the fetches with these
/// numbers.
pub(super) fn failing(
    alloc: Global,
    each: usize,
    fails: &[u64],
    name: &str,
    bytes: &[u8],
) -> Result<MemoryFiles, NoMemory>
    requires { 0 < each }
{
    let mut files = MemoryFiles::make(alloc, each, list(alloc, fails)?)?;
    files.add(alloc, name, bytes)?;
    Ok(files)
}
