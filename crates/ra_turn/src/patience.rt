//! How a pass waits between two reads of a word that another pass has to change.
use std::hint::spin_loop;
use std::thread;

/// The most spin hints between two reads. After that many the thread yields the processor to other threads.
const MOST_HINTS: u32 = 64;

/// How long a pass has waited for one word.
#[derive(Drop)]
pub(crate) struct Patience {
    hints: u32,
}

impl Patience {
    /// A pass that begins to wait.
    pub(crate) fn make() -> Patience {
        Patience { hints: 1 }
    }

    /// Waits until the next read: 1, 2, 4 and so on up to 64 spin hints to the processor, and after that for as long as
    /// the system runs other threads.
    pub(crate) fn pause(&mut self) {
        if self.hints > MOST_HINTS {
            thread::yield_now();
            return;
        }
        for _ in 0..self.hints {
            spin_loop();
        }
        self.hints *= 2;
    }
}
