ghost use Rattle.std.specs.Prelude.{◌≡◌, ℕ, ◌+◌, ◌<◌, ◌≤◌, List, [], length, slice_index_or, IfOk};
ghost use Rattle.ra_report.specs.Gathering.{AddsText};
ghost use Rattle.ra_report.specs.Pieces.{joined};
ghost use Rattle.ra_report.specs.JournalTexts.{entries_text};
ghost use Rattle.ra_report.specs.Shares.{share_start, AreLinesOfEntries, IsShare};

use crate::journal::write_line;
use crate::lengths::entry_is_short;
use crate::{Gathered, Line};
use ra_base::{Fixed, NoMemory};
use ra_io::Sink;
use ra_journal::Entries;
use std::alloc::Global;
use std::marker::{Model, Sync};
use std::thread;
use std::thread::Threads;

/// The most entries whose lines a desk writes at a time.
const SHARE: usize = 4_096;

/// How many bytes their lines have at most.
const DESK_ROOM: usize = 1_200_128;

/// A desk is a buffer into which one thread writes the lines of some entries. Contracts see what was written.
#[derive(Drop)]
struct Desk {
    text: Fixed<u8>,
}

impl Model for Desk {
    ghost use Rattle.std.specs.Prelude.{ℕ, ◌≡◌, List};

    ghost Value = { List ℕ };

    ghost view = { λ d. d.text.items };

    ghost invariant = { λ d. d.text.room ≡ 1200128 };
}

impl Desk {
    /// A desk at which nothing is written yet.
    fn make(alloc: Global) -> Result<Desk, NoMemory>
        ensures { IfOk result (λ desk. desk ≡ []) }
    {
        let text = Fixed::make(alloc, DESK_ROOM)?;
        Ok(Desk { text })
    }

    /// Overwrites the desk with the lines of a share of the entries from a place on.
    #[tactic(auto, unfolding(crate::specs::Shares::share_start))]
    fn write_share(&mut self, entries: &Entries, from: usize, number: usize)
        requires few { number < 16 }
        requires within { from ≤ length entries.now.items }
        ensures { IsShare entries.now.items from number self.new }
    {
        let start = share_start(entries, from, number);
        let end = share_start(entries, from, number + 1);
        self.write_lines(entries, start, end)
    }

    /// Overwrites the desk with the lines of the entries from a place on, before another one.
    fn write_lines(&mut self, entries: &Entries, start: usize, end: usize)
        requires order { start ≤ end }
        requires within { end ≤ length entries.now.items }
        requires few { end ≤ start + 4096 }
        ensures { AreLinesOfEntries entries.now.items start end self.new }
    {
        self.text.clear();
        let mut line = Line::new();
        for place in start..end {
            let entry = entries.get(place);
            entry_is_short(place as u64, &entry);
            write_line(&mut line, place as u64, &entry);
            self.text.extend_from_slice(line.as_slice());
        }
    }

    /// What is written.
    fn as_slice(&self) -> &[u8]
        ensures { result.now ≡ self.now }
    {
        self.text.as_slice()
    }
}

/// Where a share of the entries from a place on begins.
#[tactic(auto, unfolding(crate::specs::Shares::share_start))]
fn share_start(entries: &Entries, from: usize, number: usize) -> usize
    requires few { number ≤ 16 }
    ensures { result ≡ share_start entries.now.items from number }
{
    from.saturating_add(SHARE * number).min(entries.len())
}

/// 1 to 16 desks, at which threads write the lines of a journal at the same time. Only `make` takes memory.
#[derive(Drop)]
pub struct Desks {
    desks: Vec<Desk>,
    pub ghost some: { 1 ≤ length desks.items },
    pub ghost few: { length desks.items ≤ 16 },
}

impl Desks {
    /// This number of desks.
    pub fn make(alloc: Global, number: u32) -> Result<Desks, NoMemory>
        requires some { 1 ≤ number }
        requires few { number ≤ 16 }
    {
        let mut desks = Vec::with_capacity(alloc, number as usize)?;
        for _ in 0..number {
            let desk = Desk::make(alloc)?;
            desks.push(desk)?;
        }
        Ok(Desks { desks })
    }

    /// Writes the lines of the next entries from a place on, each desk a share of them, and gives the place after them.
    fn write_shares<R: Threads + Sync>(&mut self, rt: &R, entries: &Entries, from: usize) -> usize
        requires { from < length entries.now.items }
        ensures on { from < result }
        ensures within { result ≤ length entries.now.items }
        ensures lines { AreLinesOfEntries entries.now.items from result (joined self.new.desks.items) }
    {
        write_beside(rt, &mut self.desks, entries, from);
        share_start(entries, from, self.desks.len())
    }
}

/// Writes at each desk its share of the entries from a place on. The desks write at the same time, unless one desk has
/// all entries.
fn write_beside<R: Threads + Sync>(rt: &R, desks: &mut Vec<Desk>, entries: &Entries, from: usize)
    requires few { length desks.old.items ≤ 16 }
    requires within { from ≤ length entries.now.items }
    ensures count { length desks.new.items ≡ length desks.old.items }
    ensures each { (n : ℕ) (d : List ℕ) → n < length desks.old.items →
        IsShare entries.now.items from n (slice_index_or desks.new.items n d) }
{
    let threads = if entries.len() - from <= SHARE {
        1
    } else {
        desks.len().max(1)
    };
    thread::for_each_mut(
        rt,
        desks,
        threads,
        &|number, desk| {
            desk.write_share(entries, from, number);
        },
    );
}

/// Adds what is written at all desks, in order.
fn add_desks<O: Sink>(text: &mut Gathered<'_, O>, desks: &[Desk])
    ensures { AddsText O.taken O.faults text.old text.new (joined desks.now) }
{
    for desk in desks {
        text.add(desk.as_slice());
    }
}

/// Adds a line for each entry, in order, as `add_entries` does. The desks write the lines at the same time, until a put
/// fails.
pub(crate) fn add_entries_at<R: Threads + Sync, O: Sink>(
    rt: &R,
    desks: &mut Desks,
    text: &mut Gathered<'_, O>,
    entries: &Entries,
)
    ensures { AddsText O.taken O.faults text.old text.new
        (entries_text entries.now.items (length entries.now.items)) }
{
    let mut next = 0;
    while next < entries.len() {
        if text.has_failed() {
            return;
        }
        next = desks.write_shares(rt, entries, next);
        add_desks(text, desks.desks.as_slice());
    }
}
