//! Sinks in memory.
use ra_base::Fixed;
use ra_io::MemorySink;
use std::test::Fail;

/// A sink for 30,000 bytes that takes up to `each` at once, and whose put with this number fails.
pub(super) fn sink(rt: &impl AllocGlobal, each: usize, failing: u64) -> Result<MemorySink, Fail> {
    let mut fails = Fixed::make(rt.alloc(), 1)?;
    fails.push(failing);
    Ok(MemorySink::make(rt.alloc(), 30_000, each.max(1), fails)?)
}

/// A sink for a long report, whose put with this number fails.
pub(super) fn long_sink(rt: &impl AllocGlobal, failing: u64) -> Result<MemorySink, Fail> {
    let mut fails = Fixed::make(rt.alloc(), 1)?;
    fails.push(failing);
    Ok(MemorySink::make(rt.alloc(), 2_000_000, 1_000_000, fails)?)
}

/// A sink whose puts do not fail.
pub(super) fn sound(rt: &impl AllocGlobal) -> Result<MemorySink, Fail> {
    sink(rt, 1000, 1_000_000)
}
