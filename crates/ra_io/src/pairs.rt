use crate::outside::Gate;
use std::hint::spin_loop;
use std::sync::atomic::{AtomicBool, Ordering};

/// How often a worker looks for the other one, at most.
const MOST_LOOKS: u32 = 100_000_000;

/// A gate at which workers 0 and 1 wait for each other, each before it commits its first proposal. Each looks at most
/// 100,000,000 times. The gate shows whether the two ran at the same time.
#[derive(Drop)]
pub struct PairGate {
    first: Place,
    second: Place,
}

/// How far one of the two workers has come.
#[derive(Drop)]
struct Place {
    /// It has come to the gate.
    here: AtomicBool,
    /// It saw the other one.
    saw: AtomicBool,
}

impl PairGate {
    /// The gate to which nobody has come.
    pub fn make() -> PairGate {
        PairGate {
            first: Place::empty(),
            second: Place::empty(),
        }
    }

    /// Whether each of the two saw the other.
    pub fn met(&self) -> bool {
        self.first.saw.load(Ordering::SeqCst) && self.second.saw.load(Ordering::SeqCst)
    }
}

impl Place {
    fn empty() -> Place {
        Place {
            here: AtomicBool::new(false),
            saw: AtomicBool::new(false),
        }
    }

    /// Comes to the gate, and waits for the other worker.
    fn meet(&self, other: &Place) {
        self.here.store(true, Ordering::SeqCst);
        for _ in 0..MOST_LOOKS {
            if other.here.load(Ordering::SeqCst) {
                self.saw.store(true, Ordering::SeqCst);
                return;
            }
            spin_loop();
        }
    }
}

impl Gate for PairGate {
    fn before_commit(&self, worker: u32, k: u64) {
        match (worker, k) {
            (0, 0) => self.first.meet(&self.second),
            (1, 0) => self.second.meet(&self.first),
            _ => {}
        }
    }
}
