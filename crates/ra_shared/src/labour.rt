//! Workers that run at the same time.
ghost use Rattle.std.specs.Prelude.{◌≡◌, ℕ, ◌<◌, length, slice_index_or, All};

use std::sync::Wait;
use std::thread;
use std::thread::Threads;

/// A worker's whole run, over what all workers share, `C`. `labour` itself has the loop of the run, and may call what
/// `C` offers.
pub trait Labour<C> {
    /// The worker may run.
    ghost able: { C → Self → Type 0 };

    /// What a run makes of the worker.
    ghost done: { C → Self → Self → Type 0 };

    /// Runs to the end. It may wait for other workers.
    fn labour<R: Wait>(&mut self, rt: &R, with: &C)
        requires { able with.now self.old }
        ensures { done with.now self.old self.new };
}

/// Runs all workers, each in a thread of its own, and returns when all have ended.
pub fn all_labour<C: Sync, T: Labour<C> + Send, R: Threads + Wait + Sync>(
    rt: &R,
    with: &C,
    all: &mut Vec<T>,
)
    requires { All (λ t. T.able with.now t) all.old.items }
    ensures count { length all.new.items ≡ length all.old.items }
    ensures each { (n : ℕ) (d : T) → n < length all.old.items →
        T.done with.now (slice_index_or all.old.items n d) (slice_index_or all.new.items n d) }
{
    let count = all.len().max(1);
    thread::for_each_mut(
        rt,
        all,
        count,
        &|_, worker| {
            worker.labour(rt, with);
        },
    );
}
