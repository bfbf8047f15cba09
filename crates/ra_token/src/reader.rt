ghost use Rattle.std.specs.Prelude.{◌≡◌, ℕ, ◌+◌, ◌-◌, ◌<◌, ◌≤◌, List, length, Option, None, Some, Ok, Err, IfSome, IfOk, IsOkUnless};
ghost use Rattle.ra_token.specs.TokenList.{tokens_before};
ghost use Rattle.ra_token.specs.Reads.{Reads};
ghost use Rattle.ra_token.specs.Finds.{outside, GivesNext, GivesValues};
ghost use Rattle.ra_token.specs.Values.{AddsValues};

use crate::answers::{Token, TokenFault};
use crate::buffer::Buffer;
use ra_base::{Fixed, Name};
use ra_io::Files;
use std::alloc::Global;
use std::marker::Model;

/// The tokens of a file, in order, read through one buffer.
#[derive(Drop)]
pub struct Tokens {
    name: Name,
    place: u64,
    buffer: Buffer,
}

impl Model for Tokens {
    ghost use Rattle.std.specs.Prelude.{◌≤◌, take};
    ghost use Rattle.ra_token.specs.declared.answers.TheConstants.{PLACE_LIMIT};
    ghost use Rattle.ra_token.specs.Standing.{Standing};

    ghost Value = { Standing };

    ghost view = { λ t. record {
      name = t.name;
      place = t.place;
      start = t.buffer.start;
      ready = take t.buffer.filled t.buffer.bytes.items;
    } };

    ghost invariant = { λ t. t.place ≤ PLACE_LIMIT };
}

impl Tokens {
    /// A reader at the start of a file. It has fetched nothing yet, so it reads whichever files the first call of
    /// `next` is given.
    pub fn make(alloc: Global, name: &str) -> Result<Tokens, TokenFault>
        ensures name { IfOk result (λ t. t.name ≡ name.now) }
        ensures reads { IfOk result (λ t. (told : Option (List ℕ)) → Reads told t) }
        ensures start { IfOk result (λ t. (bytes : List ℕ) → tokens_before bytes t.place ≡ 0) }
        ensures memory { IsOkUnless result TokenFault.NoMemory }
    {
        let Ok(buffer) = Buffer::make(alloc) else {
            return Err(TokenFault::NoMemory);
        };
        let Ok(name) = Name::make(alloc, name) else {
            return Err(TokenFault::NoMemory);
        };
        Ok(Tokens {
            name,
            place: 0,
            buffer,
        })
    }

    /// The next token, and none if all were given and the file has no fault. Each call needs the files of the first
    /// call: if the bytes of its file are told, they have to be equal.
    ///
    /// # Errors
    ///
    /// The first fault of the file, once all tokens before it were given, or `ReadFault`. Nothing is lost: the reader
    /// stays where it was, so the next call gives the same fault, or tries to fetch again.
    pub fn next<F: Files>(&mut self, files: &mut F) -> Result<Option<Token>, TokenFault>
        requires reads { Reads (F.held files.old self.old.name) self.old }
        ensures { GivesNext (outside (F.held files.old) (F.held files.new) (F.faults files.old)
            (F.faults files.new))
            self.old self.new result }
    {
        let name = self.name.as_str();
        let Some((first, run)) = self.buffer.next_run(files, name, self.place)? else {
            return Ok(None);
        };
        self.place = run.end;
        Ok(Some(Token {
            value: run.value as u32,
            at: first,
        }))
    }

    /// Adds the values of the next tokens to a list: `count` of them, or all that are left if these are fewer. Gives
    /// how many were added. Each call needs the files of the first call, as in `next`.
    ///
    /// # Errors
    ///
    /// The first fault of the file, or `ReadFault`, once the values of all tokens before it were added. The reader is
    /// after those tokens then, so the next call gives the same fault, or tries to fetch again.
    pub fn next_values<F: Files>(
        &mut self,
        files: &mut F,
        count: usize,
        values: &mut Fixed<u32>,
    ) -> Result<usize, TokenFault>
        requires reads { Reads (F.held files.old self.old.name) self.old }
        requires room { length values.old.items + count ≤ values.old.room }
        ensures { GivesValues (outside (F.held files.old) (F.held files.new) (F.faults files.old)
            (F.faults files.new))
            self.old self.new count values.old values.new result }
    {
        let before = values.len();
        let mut taken = 0;
        while taken < count {
            let Some(token) = self.next(files)? else {
                return Ok(taken);
            };
            values.push(token.value);
            self.take_ready(count - taken - 1, values);
            taken = values.len() - before;
        }
        Ok(taken)
    }

    /// Adds the values of the next tokens to a list, at most `most` of them, as far as their bytes are ready.
    fn take_ready(&mut self, most: usize, values: &mut Fixed<u32>)
        requires room { length values.old.items + most ≤ values.old.room }
        ensures adds { (told : Option (List ℕ)) → Reads told self.old →
            IfSome told (λ bytes. AddsValues bytes self.old.place self.new.place
            (length values.new.items - length values.old.items) values.old.items values.new.items) }
        ensures reads { (told : Option (List ℕ)) → Reads told self.old → Reads told self.new }
        ensures most { length values.new.items ≤ length values.old.items + most }
        ensures grows { length values.old.items ≤ length values.new.items }
        ensures room { values.new.room ≡ values.old.room }
        ensures name { self.new.name ≡ self.old.name }
    {
        self.place = self.buffer.ready_values(self.place, most, values);
    }
}
