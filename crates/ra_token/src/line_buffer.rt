ghost use Rattle.std.specs.Prelude.{◌≡◌, ◌+◌, ◌<◌, ◌≤◌, ◌^◌, [], length, take, drop, IfSome, IfOk, vec_len};
ghost use Rattle.ra_io.specs.Outside.{reading};
ghost use Rattle.ra_token.specs.declared.line_buffer.TheConstants.{BUFFER_BYTES};

use crate::line_answers::{Next, ReadFault};
use crate::line_scan::line_front;
use ra_base::Fixed;
use ra_io::Files;
use std::alloc::{AllocError, Global};

/// How many bytes are fetched at once.
pub const BUFFER_BYTES: usize = 65_536;

/// Some bytes of a file that are held ready.
#[derive(Drop)]
pub struct Buffer {
    /// The index of the first byte that was not given yet.
    pub at: usize,
    /// How many bytes were fetched, including those that were given.
    pub filled: usize,
    /// The fetched bytes, and room for more.
    pub bytes: Vec<u8>,
    pub ghost whole: { vec_len bytes ≡ BUFFER_BYTES },
    pub ghost within: { filled ≤ BUFFER_BYTES },
    pub ghost behind: { at ≤ filled },
}

impl Buffer {
    ghost use Rattle.ra_token.specs.Buffers.{ready_of, GivesLine, MakesReady, GivesFront};

    /// A buffer with nothing ready.
    pub fn make(alloc: Global) -> Result<Buffer, AllocError>
        ensures { IfOk result (λ w. ready_of w ≡ []) }
    {
        let bytes = vec![in alloc; 0; BUFFER_BYTES]?;
        Ok(Buffer {
            at: 0,
            filled: 0,
            bytes,
        })
    }

    /// Adds the next line of a file from `place` on at the end of `line`, as `LineReader::next` does.
    pub fn next_line<F: Files>(
        &mut self,
        files: &mut F,
        name: &str,
        place: u64,
        room: usize,
        line: &mut Fixed<u8>,
    ) -> Result<Next, ReadFault>
        requires ready { IfSome (F.held files.old name.now) (λ bytes.
            take (length (ready_of self.old)) (drop place bytes) ≡ ready_of self.old) }
        requires room { length line.old.items + room < line.old.room }
        requires near { place + room < 2 ^ 62 }
        ensures { GivesLine (reading F.Files files.old files.new) name.now place room
            line.old line.new (ready_of self.new) result }
    {
        let before = line.len();
        let mut given = 0;
        while given <= room {
            if !self.has_ready(files, name, place + given as u64)? {
                return Ok(at_end(given));
            }
            let ended = self.give(room + 1 - given, line);
            given = line.len() - before;
            if ended {
                return Ok(Next::Line);
            }
        }
        Ok(Next::Long)
    }

    /// Whether bytes are ready. If none are, it first fetches those from `place` on.
    pub fn has_ready<F: Files>(
        &mut self,
        files: &mut F,
        name: &str,
        place: u64,
    ) -> Result<bool, ReadFault>
        requires place { place < 2 ^ 62 }
        ensures { MakesReady (reading F.Files files.old files.new) name.now place
            (ready_of self.old) (ready_of self.new) result }
    {
        if self.at < self.filled {
            return Ok(true);
        }
        self.at = 0;
        self.filled = 0;
        let Ok(number) = files.fetch(name, place, self.bytes.as_mut_slice()) else {
            return Err(ReadFault);
        };
        self.filled = number;
        Ok(number > 0)
    }

    /// Gives the ready bytes up to and with the first LF, or all of them, but at most `most`: it adds them to `line`.
    /// Says whether there was an LF.
    pub fn give(&mut self, most: usize, line: &mut Fixed<u8>) -> bool
        requires room { length line.old.items + most ≤ line.old.room }
        ensures { GivesFront most (ready_of self.old) (ready_of self.new) line.old line.new
            result }
    {
        let (number, ended) = line_front(&self.bytes[self.at..self.filled], most);
        line.extend_from_slice(&self.bytes[self.at..self.at + number]);
        self.at += number;
        ended
    }
}

/// What comes next if the file ends after `given` bytes of a line.
fn at_end(given: usize) -> Next
    ensures none { given ≡ 0 → result ≡ Next.End }
    ensures some { 0 < given → result ≡ Next.Last }
{
    if given == 0 { Next::End } else { Next::Last }
}
