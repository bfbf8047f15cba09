use crate::orders::{Order, Task};
use crate::searcher::{Made, Searcher};
use ra_base::{Assignment, Fixed, Steps};
use std::hint::spin_loop;
use std::mem::swap;
use std::sync::atomic::{AtomicU64, Ordering};
use std::sync::ledger::Ledger;
use std::sync::{Mutex, RwLock, Wait};
use std::thread;

/// The seat of a searcher, and for which order it was taken up last.
#[derive(Drop)]
pub(crate) struct Seat<'a> {
    pub(crate) searcher: Mutex<Searcher<'a>>,
    begun: AtomicU64,
}

impl<'a> Seat<'a> {
    /// A seat whose searcher was taken up for no order.
    pub(crate) fn make(searcher: Searcher<'a>) -> Seat<'a> {
        Seat {
            searcher: Mutex::new(searcher),
            begun: AtomicU64::new(0),
        }
    }

    /// Takes the searcher up for an order, if nobody has done so before.
    fn is_taken_up(&self, number: u64) -> bool {
        let before = number.wrapping_sub(1);
        self.begun
            .compare_exchange(before, number, Ordering::SeqCst, Ordering::SeqCst)
            .is_ok()
    }
}

/// Where the searchers of a search sit, with the order that they carry out next. Each thread first takes up those that
/// it had before, whose numbers are near it then, and helps the others after that. So what they do is the same however
/// many threads there are.
#[derive(Drop)]
pub(crate) struct Desk<'a> {
    pub(crate) seats: Vec<Seat<'a>>,
    pub(crate) order: RwLock<Order>,
    /// How many threads there are.
    pub(crate) threads: usize,
    /// How many orders were given, and how many searchers have carried out the present one.
    given: AtomicU64,
    ended: AtomicU64,
}

impl<'a> Desk<'a> {
    /// A desk for these searchers, with an order that nobody was given.
    pub(crate) fn make(seats: Vec<Seat<'a>>, order: Order, threads: usize) -> Desk<'a> {
        Desk {
            seats,
            order: RwLock::new(order),
            threads,
            given: AtomicU64::new(0),
            ended: AtomicU64::new(0),
        }
    }

    /// Gives an order, with the list at which the lead stands and the moves that it made, which it hands over.
    pub(crate) fn give<R: Wait>(
        &self,
        rt: &R,
        task: Task,
        here: &Assignment,
        made: &mut Fixed<Made>,
    ) {
        let mut guard = self.order.write(rt);
        let order = &mut *guard;
        order.task = task;
        if here.len() <= order.list.room() {
            order.list.clear();
            order.list.extend_from_slice(here.as_slice());
        }
        swap(&mut order.taken, made);
        made.clear();
        drop(guard);
        self.ended.store(0, Ordering::SeqCst);
        self.given.fetch_add(1, Ordering::SeqCst);
    }

    /// Has all searchers carry out the order, and helps with it.
    pub(crate) fn carry_out<R: Wait, L: Ledger>(&self, rt: &R, steps: &mut Steps<L>) {
        let given = self.given.load(Ordering::SeqCst);
        self.help(rt, given, 0, steps);
        let mut waits = 0;
        let all = self.seats.len() as u64;
        for _ in rt.forever() {
            if self.ended.load(Ordering::SeqCst) >= all {
                return;
            }
            waits = pause(waits);
        }
    }

    /// Tells all threads that help that there is nothing more to do.
    pub(crate) fn dismiss<R: Wait>(&self, rt: &R) {
        self.order.write(rt).task = Task::Stop;
        self.given.fetch_add(1, Ordering::SeqCst);
    }

    /// Helps with one order after another, as the thread of this number, until there are no more.
    pub(crate) fn attend<R: Wait, L: Ledger>(&self, rt: &R, thread: usize, steps: &mut Steps<L>) {
        let mut seen = 0;
        let mut waits = 0;
        for _ in rt.forever() {
            let given = self.given.load(Ordering::SeqCst);
            if given == seen {
                waits = pause(waits);
            } else {
                seen = given;
                waits = 0;
                if self.is_over(rt) {
                    return;
                }
                self.help(rt, given, thread, steps);
            }
        }
    }

    fn is_over<R: Wait>(&self, rt: &R) -> bool {
        let order = self.order.read(rt);
        matches!(&order.task, Task::Stop)
    }

    /// Takes up the searchers of a thread, one after another, and then those of others that nobody has taken up.
    fn help<R: Wait, L: Ledger>(&self, rt: &R, number: u64, thread: usize, steps: &mut Steps<L>) {
        let all = self.seats.len();
        for k in 0..all {
            if (k + 1) % self.threads.max(1) == thread {
                self.take_up(rt, k, number, steps);
            }
        }
        for k in 0..all {
            self.wait_for(k, number);
            self.take_up(rt, k, number, steps);
        }
    }

    /// Waits a little for another thread to take up its searcher for an order.
    fn wait_for(&self, k: usize, number: u64) {
        let Some(seat) = self.seats.get(k) else {
            return;
        };
        for _ in 0..PATIENCE {
            if seat.begun.load(Ordering::SeqCst) == number {
                return;
            }
            spin();
        }
    }

    /// Has a searcher carry out an order, if nobody has taken it up.
    fn take_up<R: Wait, L: Ledger>(&self, rt: &R, k: usize, number: u64, steps: &mut Steps<L>) {
        let Some(seat) = self.seats.get(k) else {
            return;
        };
        if seat.is_taken_up(number) {
            let order = self.order.read(rt);
            let number = k.wrapping_add(1);
            seat.searcher.lock(rt).obey(number, &order, steps);
            self.ended.fetch_add(1, Ordering::SeqCst);
        }
    }
}

/// How many times a thread looks again before it lets others run.
const LOOKS: u32 = 200;

/// How many times a thread looks whether another one begins its work before it does that itself.
const PATIENCE: u32 = 200;

/// For how long it waits between two looks.
const SPINS: u32 = 8;

/// Waits a little, or after many times for as long as the system runs other threads.
fn pause(waits: u32) -> u32 {
    if waits > LOOKS {
        thread::yield_now();
        return waits;
    }
    spin();
    waits + 1
}

fn spin() {
    for _ in 0..SPINS {
        spin_loop();
    }
}
