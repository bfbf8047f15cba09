ghost use Rattle.std.specs.Prelude.{◌≡◌, ℕ, ◌+◌, ◌<◌, ◌^◌, List, length, Option, IfOk};
ghost use Rattle.ra_io.specs.Outside.{reading};
ghost use Rattle.ra_token.specs.Reading.{Reads, TakesLine};

use crate::line_answers::{Next, ReadFault};
use crate::line_buffer::Buffer;
use ra_base::{Fixed, Name, NoMemory};
use ra_io::Files;
use std::alloc::Global;
use std::marker::Model;

/// The lines of a file, in order, read through one buffer.
#[derive(Drop)]
pub struct LineReader {
    name: Name,
    place: u64,
    buffer: Buffer,
}

impl Model for LineReader {
    ghost use Rattle.ra_token.specs.LineStanding.{Standing};
    ghost use Rattle.ra_token.specs.Buffers.{ready_of};

    ghost Value = { Standing };

    ghost view = { λ r. record { name = r.name; place = r.place; ready = ready_of r.buffer } };
}

impl LineReader {
    /// A reader at the start of a file. It has fetched nothing yet, so it reads whichever files the first call of
    /// `next` is given.
    pub fn make(alloc: Global, name: &str) -> Result<LineReader, NoMemory>
        ensures name { IfOk result (λ r. r.name ≡ name.now) }
        ensures reads { IfOk result (λ r. (told : Option (List ℕ)) → Reads told r) }
        ensures start { IfOk result (λ r. r.place ≡ 0) }
    {
        let buffer = Buffer::make(alloc)?;
        let name = Name::make(alloc, name)?;
        Ok(LineReader {
            name,
            place: 0,
            buffer,
        })
    }

    /// Adds the next line, with its LF, at the end of `line`, if at most `room` bytes come before the LF or the end,
    /// and says what it is. Of a longer line it adds the first `room + 1` bytes. Each call needs the files of the first
    /// call: if the bytes of its file are told, they have to be equal.
    ///
    /// # Errors
    ///
    /// A fetch failed. The bytes of the line that were fetched before were given, and the next call goes on after them.
    pub fn next<F: Files>(
        &mut self,
        files: &mut F,
        room: usize,
        line: &mut Fixed<u8>,
    ) -> Result<Next, ReadFault>
        requires reads { Reads (F.held files.old self.old.name) self.old }
        requires room { length line.old.items + room < line.old.room }
        requires near { self.old.place + room < 2 ^ 62 }
        ensures { TakesLine (reading F.Files files.old files.new) room self.old self.new
            line.old line.new result }
    {
        let before = line.len();
        let next = self
            .buffer
            .next_line(files, self.name.as_str(), self.place, room, line);
        self.place += (line.len() - before) as u64;
        next
    }
}
