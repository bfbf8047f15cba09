ghost use Rattle.std.specs.Prelude.{◌≡◌, ℕ, ◌+◌, ◌-◌, ◌<◌, ◌≤◌, true, List, length, Option, None, Some, Ok, Err, IfSome, IfOk, vec_len};
ghost use Rattle.ra_token.specs.declared.answers.TheConstants.{PLACE_LIMIT};
ghost use Rattle.ra_token.specs.declared.buffer.TheConstants.{BUFFER_BYTES};

use crate::answers::{LARGEST, PLACE_LIMIT, TokenFault};
use crate::scan::{gather, is_blank, skip_blanks, whole_run};
use crate::take::take_runs;
use ra_base::Fixed;
use ra_io::Files;
use std::alloc::{AllocError, Global};

/// How many bytes are fetched at once.
pub const BUFFER_BYTES: usize = 65_536;

/// Some bytes of a file that are held ready.
#[derive(Drop)]
pub struct Buffer {
    /// The place of the first byte that is held ready.
    pub start: u64,
    /// How many bytes are held ready.
    pub filled: usize,
    /// The ready bytes, and room for more.
    pub bytes: Vec<u8>,
    pub ghost whole: { vec_len bytes ≡ BUFFER_BYTES },
    pub ghost within: { filled ≤ BUFFER_BYTES },
    pub ghost below: { start + filled ≤ PLACE_LIMIT },
}

/// A run of digits of a file.
#[derive(Clone, Copy)]
pub struct Run {
    /// The place after its last digit.
    pub end: u64,
    /// What it is worth.
    pub value: u64,
}

impl Buffer {
    ghost use Rattle.ra_token.specs.declared.answers.TheConstants.{LARGEST};
    ghost use Rattle.std.specs.Char.{is_ascii_digit};
    ghost use Rattle.ra_token.specs.Runs.{is_blank};
    ghost use Rattle.ra_token.specs.Reads.{IsBetween};
    ghost use Rattle.ra_token.specs.Values.{AddsValues};
    ghost use Rattle.ra_token.specs.Scan.{Shows, Covers, ready_byte, Begins, IsNext, FaultsAt, IsReached, InRun};
    ghost use Rattle.ra_token.specs.Finds.{outside, ReadsByte, FindsRun, FindsDigit, EndsRun};

    /// A buffer with nothing ready.
    pub fn make(alloc: Global) -> Result<Buffer, AllocError>
        ensures { IfOk result (λ w. w.filled ≡ 0) }
    {
        let bytes = vec![in alloc; 0; BUFFER_BYTES]?;
        Ok(Buffer {
            start: 0,
            filled: 0,
            bytes,
        })
    }

    /// The next run of digits from `place` on, with the place of its first digit, and none if only blanks are left.
    pub fn next_run<F: Files>(
        &mut self,
        files: &mut F,
        name: &str,
        place: u64,
    ) -> Result<Option<(u64, Run)>, TokenFault>
        requires place { place ≤ PLACE_LIMIT }
        requires shows { Shows (F.held files.old name.now) self.old }
        requires between { IfSome (F.held files.old name.now) (λ bytes. IsBetween bytes place) }
        ensures { FindsRun (outside (F.held files.old) (F.held files.new) (F.faults files.old)
            (F.faults files.new))
            name.now place self.new result }
    {
        match self.ready_run(place) {
            Some(found) => Ok(Some(found)),
            None => self.fetched_run(files, name, place),
        }
    }

    /// The next run, if it is not too large, and if it, the blanks before it and the byte after it are ready.
    fn ready_run(&self, place: u64) -> Option<(u64, Run)>
        ensures next { (told : Option (List ℕ)) → Shows told self.now →
            IfSome told (λ bytes. IsBetween bytes place
            → IfSome result (λ run. IsNext bytes place run.0 run.1.end run.1.value)) }
        ensures place { IfSome result (λ run. run.1.end ≤ PLACE_LIMIT) }
        ensures small { IfSome result (λ run. run.1.value ≤ LARGEST) }
    {
        if place < self.start || place - self.start >= self.filled as u64 {
            return None;
        }
        let ready = &self.bytes[..self.filled];
        let Some((first, stretch)) = whole_run(ready, (place - self.start) as usize) else {
            return None;
        };
        let run = Run {
            end: self.start + stretch.end as u64,
            value: stretch.value,
        };
        Some((self.start + first as u64, run))
    }

    /// Adds the values of the next runs from `place` on to a list, at most `most` of them, as far as they are close
    /// together in the buffer: each follows one blank, and ends well before the buffer's end. Gives the place after the
    /// last one.
    pub fn ready_values(&self, place: u64, most: usize, values: &mut Fixed<u32>) -> u64
        requires place { place ≤ PLACE_LIMIT }
        requires room { length values.old.items + most ≤ values.old.room }
        ensures adds { (told : Option (List ℕ)) → Shows told self.now →
            IfSome told (λ bytes. IsBetween bytes place
            → AddsValues bytes place result
            (length values.new.items - length values.old.items) values.old.items values.new.items) }
        ensures place { result ≤ PLACE_LIMIT }
        ensures grows { length values.old.items ≤ length values.new.items }
        ensures most { length values.new.items ≤ length values.old.items + most }
        ensures room { values.new.room ≡ values.old.room }
    {
        if place < self.start || place - self.start >= self.filled as u64 {
            return place;
        }
        let ready = &self.bytes[..self.filled];
        let end = take_runs(ready, (place - self.start) as usize, most, values);
        self.start + end as u64
    }

    /// The next run, read byte by byte if its bytes have to be fetched.
    #[cold]
    #[inline(never)]
    fn fetched_run<F: Files>(
        &mut self,
        files: &mut F,
        name: &str,
        place: u64,
    ) -> Result<Option<(u64, Run)>, TokenFault>
        requires place { place ≤ PLACE_LIMIT }
        requires shows { Shows (F.held files.old name.now) self.old }
        requires between { IfSome (F.held files.old name.now) (λ bytes. IsBetween bytes place) }
        ensures { FindsRun (outside (F.held files.old) (F.held files.new) (F.faults files.old)
            (F.faults files.new))
            name.now place self.new result }
    {
        let Some(first) = self.first_digit(files, name, place)? else {
            return Ok(None);
        };
        let run = self.run_from(files, name, first)?;
        Ok(Some((first, run)))
    }

    /// The byte at a place, and none past the end of the file. The buffer then holds it ready, unless it is at
    /// `PLACE_LIMIT`.
    fn byte<F: Files>(
        &mut self,
        files: &mut F,
        name: &str,
        at: u64,
    ) -> Result<Option<u8>, TokenFault>
        requires place { at ≤ PLACE_LIMIT }
        requires shows { Shows (F.held files.old name.now) self.old }
        ensures { ReadsByte (outside (F.held files.old) (F.held files.new) (F.faults files.old)
            (F.faults files.new))
            name.now at self.new result }
    {
        if self.start <= at && at - self.start < self.filled as u64 {
            return Ok(Some(self.bytes[(at - self.start) as usize]));
        }
        self.fill(files, name, at)
    }

    /// Fetches the bytes from a place on, and gives the first.
    fn fill<F: Files>(
        &mut self,
        files: &mut F,
        name: &str,
        at: u64,
    ) -> Result<Option<u8>, TokenFault>
        requires place { at ≤ PLACE_LIMIT }
        ensures { ReadsByte (outside (F.held files.old) (F.held files.new) (F.faults files.old)
            (F.faults files.new))
            name.now at self.new result }
    {
        self.filled = 0;
        let Ok(number) = files.fetch(name, at, self.bytes.as_mut_slice()) else {
            return Err(TokenFault::ReadFault);
        };
        self.start = at;
        self.filled = number.min((PLACE_LIMIT - at) as usize);
        if number == 0 {
            return Ok(None);
        }
        Ok(Some(self.bytes[0]))
    }

    /// The place of the first byte from `place` on that is ready and no blank, or else of the first byte that isn't
    /// ready.
    fn past_blanks(&self, place: u64) -> u64
        requires { Covers self.now place }
        ensures low { place ≤ result }
        ensures high { result ≤ self.now.start + self.now.filled }
        ensures moves { is_blank (ready_byte self.now place) ≡ true → place < result }
        ensures reached { (told : Option (List ℕ)) → Shows told self.now →
            IfSome told (λ bytes. IsBetween bytes place → IsReached bytes place result) }
    {
        let index = skip_blanks(&self.bytes[..self.filled], (place - self.start) as usize);
        self.start + index as u64
    }

    /// Where the next run of digits begins, from `place` on, and none if only blanks are left.
    fn first_digit<F: Files>(
        &mut self,
        files: &mut F,
        name: &str,
        place: u64,
    ) -> Result<Option<u64>, TokenFault>
        requires place { place ≤ PLACE_LIMIT }
        requires shows { Shows (F.held files.old name.now) self.old }
        requires between { IfSome (F.held files.old name.now) (λ bytes. IsBetween bytes place) }
        ensures { FindsDigit (outside (F.held files.old) (F.held files.new) (F.faults files.old)
            (F.faults files.new))
            name.now place self.new result }
    {
        let mut at = place;
        while let Some(byte) = self.byte(files, name, at)? {
            if at == PLACE_LIMIT {
                return Err(TokenFault::TooLong);
            }
            if byte.is_ascii_digit() {
                return Ok(Some(at));
            }
            if !is_blank(byte) {
                return Err(TokenFault::BadByte { at, byte });
            }
            at = self.past_blanks(at);
        }
        Ok(None)
    }

    /// The run of digits that begins at `first`.
    fn run_from<F: Files>(
        &mut self,
        files: &mut F,
        name: &str,
        first: u64,
    ) -> Result<Run, TokenFault>
        requires place { first < PLACE_LIMIT }
        requires shows { Shows (F.held files.old name.now) self.old }
        requires begins { IfSome (F.held files.old name.now) (λ bytes. Begins bytes first first) }
        ensures { EndsRun (outside (F.held files.old) (F.held files.new) (F.faults files.old)
            (F.faults files.new))
            name.now first self.new result }
    {
        let mut end = first;
        let mut value = 0;
        while let Some(byte) = self.byte(files, name, end)? {
            if !byte.is_ascii_digit() {
                break;
            }
            if end == PLACE_LIMIT {
                return Err(TokenFault::TooLong);
            }
            let run = self.more_digits(end, value);
            if run.value > LARGEST {
                return Err(TokenFault::TooLarge { at: first });
            }
            end = run.end;
            value = run.value;
        }
        Ok(Run { end, value })
    }

    /// The run that is worth `carried` up to a place, extended by the ready digits from there on, until they end or the
    /// run is worth more than `LARGEST`.
    fn more_digits(&self, place: u64, carried: u64) -> Run
        requires covers { Covers self.now place }
        requires small { carried ≤ LARGEST }
        ensures low { place ≤ result.end }
        ensures high { result.end ≤ self.now.start + self.now.filled }
        ensures moves { is_ascii_digit (ready_byte self.now place) ≡ true → place < result.end }
        ensures goes_on { (told : Option (List ℕ)) → Shows told self.now →
            IfSome told (λ bytes. (first : ℕ) → InRun bytes first place carried
            → result.value ≤ LARGEST → InRun bytes first result.end result.value) }
        ensures too_large { (told : Option (List ℕ)) → Shows told self.now →
            IfSome told (λ bytes. (first : ℕ) → InRun bytes first place carried
            → LARGEST < result.value → FaultsAt bytes first (TokenFault.TooLarge first)) }
    {
        let stretch = gather(
            &self.bytes[..self.filled],
            (place - self.start) as usize,
            carried,
        );
        Run {
            end: self.start + stretch.end as u64,
            value: stretch.value,
        }
    }
}
