ghost use Rattle.std.specs.Prelude.{◌≡◌, ◌≤◌, ◌<◌, length, map, OnOk, OnErr, IfOk, IsOk, Some};
ghost use Rattle.std.specs.Prelude.{None, IsErrOf, alloc_error, ◌↔◌, IsTrue};
ghost use Rattle.std.specs.Option.{option_map};
ghost use Rattle.std.specs.FinMap as finite;
ghost use Rattle.dt_world.specs.Memory.{fails, after_read, written, unwritten};
ghost use Rattle.dt_world.specs.Told.{IsFile, IsAbsent, IsLonger};

use crate::numbers::{is_failing, raised};
use crate::{Files, ReadFail, WriteFail};
use dt_base::Text;
use std::alloc::{AllocError, Global};
use std::collections::VecDeque;
use std::marker::Model;

/// Files in memory, which tell what they hold.
///
/// Its calls are numbered from 1, reads and writes together, and those whose number is in a list
/// fail. With an empty list none fails and its counts stay 0.
#[derive(Drop)]
pub struct MemFiles {
    alloc: Global,
    /// The writes, newest first, and then the files of the beginning.
    log: VecDeque<(Text, Vec<u8>)>,
    failing: Vec<u64>,
    calls: u64,
    read_faults: u64,
    write_faults: u64,
}

impl Model for MemFiles {
    ghost use Rattle.std.specs.Prelude.{map};
    ghost use Rattle.std.specs.FinMap as finite;
    ghost use Rattle.dt_world.specs.Memory.{MemFilesSeen, mem_files_code};

    ghost Value = { MemFilesSeen };

    ghost coded = { mem_files_code };

    ghost view = { λ m. record {
      files = finite.from_entries (map (λ e. (e.0, e.1.items)) m.log.items);
      failing = m.failing.items;
      calls = m.calls;
      read_faults = m.read_faults;
      write_faults = m.write_faults;
    } };
}

impl MemFiles {
    /// These files, whose calls with these numbers fail. It takes no memory. Of two files with one
    /// name the first counts.
    pub fn new(alloc: Global, files: Vec<(Text, Vec<u8>)>, failing: Vec<u64>) -> MemFiles
        ensures files { result.files
            ≡ finite.from_entries (map (λ e. (e.0, e.1.items)) files.items) }
        ensures failing { result.failing ≡ failing.items }
        ensures counts { (result.calls ≡ 0) × (result.read_faults ≡ 0) × (result.write_faults ≡ 0) }
    {
        MemFiles {
            alloc,
            log: VecDeque::from(files),
            failing,
            calls: 0,
            read_faults: 0,
            write_faults: 0,
        }
    }

    fn find(&self, name: &str) -> Option<&[u8]>
        ensures { option_map (λ v. v.now) result ≡ finite.get self.now.files name.now }
    {
        for (held, bytes) in &self.log {
            if held.as_str() == name {
                return Some(bytes.as_slice());
            }
        }
        None
    }
}

impl Files for MemFiles {
    ghost held = { λ m. Some m.files };

    ghost read_faults = { λ m. m.read_faults };

    ghost write_faults = { λ m. m.write_faults };

    ghost misses = { λ m. 0 };

    ghost longs = { λ m. 0 };

    /// A call that is to fail answers `Failed` before the name is looked at.
    fn read(&mut self, name: &str, limit: u64) -> Result<Vec<u8>, ReadFail>
        ensures after { self.new ≡ after_read self.old }
        ensures failed { IsErrOf result ReadFail.Failed
            ↔ IsTrue (fails self.old.failing self.old.calls) }
        ensures within { IfOk result (λ v. length v.items ≤ limit) }
        ensures content { IfOk result (λ v. finite.get self.old.files name.now ≡ Some v.items) }
        ensures absent { IsErrOf result ReadFail.Absent
            → finite.get self.old.files name.now ≡ None }
        ensures too_long { IsErrOf result ReadFail.TooLong
            → IsLonger (Some self.old.files) name.now limit ⊥ }
        ensures read_faults { self.old.read_faults ≤ self.new.read_faults }
    {
        let fails = is_failing(&self.failing, self.calls);
        self.calls = raised(self.calls);
        if fails {
            self.read_faults = raised(self.read_faults);
            return Err(ReadFail::Failed);
        }
        let Some(bytes) = self.find(name) else {
            return Err(ReadFail::Absent);
        };
        if bytes.len() as u64 > limit {
            return Err(ReadFail::TooLong);
        }
        match bytes.to_vec(self.alloc) {
            Ok(copy) => Ok(copy),
            Err(error) => Err(ReadFail::NoMemory(error)),
        }
    }

    /// A call that is to fail leaves all files.
    fn write(&mut self, name: &str, bytes: &[u8]) -> Result<(), WriteFail>
        ensures ok { OnOk result (self.new ≡ written self.old name.now bytes.now) }
        ensures err { OnErr result (self.new ≡ unwritten self.old) }
        ensures failed { IsErrOf result WriteFail.Failed
            ↔ IsTrue (fails self.old.failing self.old.calls) }
        ensures write_faults { self.old.write_faults ≤ self.new.write_faults }
    {
        let fails = is_failing(&self.failing, self.calls);
        self.calls = raised(self.calls);
        if fails {
            self.write_faults = raised(self.write_faults);
            return Err(WriteFail::Failed);
        }
        let name = Text::make(self.alloc, name).map_err(WriteFail::NoMemory)?;
        let copy = bytes.to_vec(self.alloc).map_err(WriteFail::NoMemory)?;
        match self.log.push_front((name, copy)) {
            Ok(()) => Ok(()),
            Err(refused) => Err(WriteFail::NoMemory(AllocError::from(refused))),
        }
    }
}
