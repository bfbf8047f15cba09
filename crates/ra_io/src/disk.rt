ghost use Rattle.std.specs.Prelude.{◌≡◌, ◌≤◌, if◌then◌else◌, ℕ, List, length, None, IfOk, OnErr};
ghost use Rattle.std.specs.Result.{is_err};
ghost use Rattle.ra_io.specs.Faults.{Rose, raised};

use crate::counts::Count;
use crate::outside::{Failed, Files};
use arrayvec::ArrayString;
use std::io::{Read, Seek, SeekFrom};
use std::{fs, io, rt};

/// The most bytes of a name, which is the system's limit for a path.
const MOST_NAME: usize = 4096;

/// The files of the system. Contracts don't say what they hold, and one count serves all names.
///
/// The file that was read last stays open. A fetch at place 0 opens the name again. A fetch that goes on where the last
/// one ended reads on in the open file, so that one reading from start to end sees one file, even if another file has
/// taken the name by then.
#[derive(Drop)]
pub struct DiskFiles<'r, R: rt::Files> {
    rt: &'r R,
    faults: Count,
    /// The file that was read last, unless that failed.
    file: Option<R::File>,
    /// Its name.
    name: ArrayString<MOST_NAME>,
    /// The place after what was read last.
    place: u64,
}

impl<'r, R: rt::Files> DiskFiles<'r, R> {
    ghost use Rattle.ra_io.specs.DiskFiles as disk;

    /// The files that this runtime reaches.
    pub fn make(rt: &'r R) -> DiskFiles<'r, R>
        ensures { (name : List ℕ) → ⟦<DiskFiles<'r, R> as Files>⟧.faults result name ≡ 0 }
    {
        DiskFiles {
            rt,
            faults: Count::make(),
            file: None,
            name: ArrayString::new(),
            place: 0,
        }
    }

    /// Reads from a place of a file on. After a failure no file is kept, so that the next call tries this place again.
    fn read_at(&mut self, name: &str, at: u64, into: &mut [u8]) -> io::Result<usize>
        ensures bound { IfOk result (λ n. n ≤ length into.new) }
        ensures faults { disk.count self.new ≡ disk.count self.old }
    {
        let mut file = match self.file.take() {
            Some(file) if at > 0 && self.name.as_str() == name => file,
            _ => {
                self.place = 0;
                fs::open(self.rt, name)?
            }
        };
        if at != self.place {
            file.seek(SeekFrom::Start(at))?;
        }
        let number = file.read(into)?;
        self.keep(file, name, at.saturating_add(number as u64));
        Ok(number)
    }

    /// Keeps an open file with its name, unless the name is longer than any path.
    fn keep(&mut self, file: R::File, name: &str, place: u64)
        ensures { disk.count self.new ≡ disk.count self.old }
    {
        self.name.clear();
        if self.name.try_push_str(name).is_ok() {
            self.file = Some(file);
            self.place = place;
        }
    }
}

impl<R: rt::Files> Files for DiskFiles<'_, R> {
    ghost use Rattle.ra_io.specs.DiskFiles as disk;

    ghost held = { λ s name. None };

    ghost faults = { λ s name. disk.faults s };

    ghost counted = { λ s name. disk.counted s };

    fn fetch(&mut self, name: &str, at: u64, into: &mut [u8]) -> Result<usize, Failed>
        ensures bound { IfOk result (λ n. n ≤ length into.new) }
        ensures failed { OnErr result (Rose (disk.faults self.old) (disk.faults self.new)) }
        ensures never_fall { (other : List ℕ) → disk.faults self.old ≤ disk.faults self.new }
        ensures faults { disk.faults self.new ≡
            (if is_err result then raised (disk.faults self.old) else disk.faults self.old) }
    {
        let outcome = self.read_at(name, at, into);
        self.faults.counted(outcome)
    }
}
