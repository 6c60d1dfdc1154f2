ghost use Rattle.std.specs.Prelude.{◌≡◌, ◌≤◌, ◌+◌, ◌/◌, ◌++◌, take, length, OnOk, OnErr, IsOk};
ghost use Rattle.std.specs.Prelude.{Some, [], IsErrOf, IsTrue, alloc_error};
ghost use Rattle.dt_world.specs.Causes.{counted};
ghost use Rattle.dt_world.specs.Memory.{fails};

use crate::numbers::{is_failing, raised};
use crate::{Sink, WriteFail};
use std::alloc::{AllocError, Global};
use std::marker::Model;

/// A sink in memory, which tells what was put.
///
/// Its puts are numbered from 1, and those whose number is in a list fail. With an empty list none
/// fails and its count stays 0.
#[derive(Drop)]
pub struct MemSink {
    bytes: Vec<u8>,
    failing: Vec<u64>,
    puts: u64,
    faults: u64,
}

impl Model for MemSink {
    ghost use Rattle.std.specs.Prelude.{◌-◌, vec_capacity, vec_len};
    ghost use Rattle.dt_world.specs.Memory.{MemSinkSeen};

    ghost Value = { MemSinkSeen };

    ghost view = { λ s. record {
      bytes = s.bytes.items;
      failing = s.failing.items;
      puts = s.puts;
      faults = s.faults;
      spare = vec_capacity s.bytes - vec_len s.bytes;
    } };
}

impl MemSink {
    /// An empty sink, whose puts with these numbers fail. It takes no memory.
    pub fn new(alloc: Global, failing: Vec<u64>) -> MemSink
        ensures empty { result.bytes ≡ [] }
        ensures failing { result.failing ≡ failing.items }
        ensures counts { (result.puts ≡ 0) × (result.faults ≡ 0) }
    {
        MemSink {
            bytes: Vec::new(alloc),
            failing,
            puts: 0,
            faults: 0,
        }
    }

    /// Makes room for `n` more bytes, so that puts of no more than these take no memory.
    pub fn reserve(&mut self, n: usize) -> Result<(), AllocError>
        ensures room { OnOk result (n ≤ self.new.spare) }
        ensures same { (self.new.bytes ≡ self.old.bytes) × (self.new.failing ≡ self.old.failing)
            × (self.new.puts ≡ self.old.puts) × (self.new.faults ≡ self.old.faults) }
    {
        self.bytes.reserve(n)
    }

    /// What was put.
    pub fn bytes(&self) -> &[u8]
        ensures { result.now ≡ self.now.bytes }
    {
        &self.bytes
    }
}

impl Sink for MemSink {
    ghost bytes = { λ s. Some s.bytes };

    ghost faults = { λ s. s.faults };

    /// A put that is to fail appends the first half of its piece, rounded down. A put of no more
    /// bytes than there is room for takes no memory.
    fn put(&mut self, piece: &[u8]) -> Result<(), WriteFail>
        ensures ok { OnOk result ((self.new.bytes ≡ self.old.bytes ++ piece.now)
            × (self.new.faults ≡ self.old.faults)) }
        ensures failed { IsErrOf result WriteFail.Failed
            → (self.new.bytes ≡ self.old.bytes ++ take (length piece.now / 2) piece.now)
            × (self.new.faults ≡ counted self.old.faults) }
        ensures no_memory { IsErrOf result (WriteFail.NoMemory alloc_error)
            → (self.new.bytes ≡ self.old.bytes) × (self.new.faults ≡ self.old.faults) }
        ensures failing { IsTrue (fails self.old.failing self.old.puts) → IsOk result → ⊥ }
        ensures not_failing { IsErrOf result WriteFail.Failed
            → IsTrue (fails self.old.failing self.old.puts) }
        ensures faults { self.old.faults ≤ self.new.faults }
        ensures room { length piece.now ≤ self.old.spare
            → IsErrOf result (WriteFail.NoMemory alloc_error) → ⊥ }
        ensures spare { self.old.spare ≤ self.new.spare + length piece.now }
        ensures number { (self.new.puts ≡ counted self.old.puts)
            × (self.new.failing ≡ self.old.failing) }
    {
        let fails = is_failing(&self.failing, self.puts);
        self.puts = raised(self.puts);
        if fails {
            if let Err(error) = self.bytes.extend_from_slice(&piece[..piece.len() / 2]) {
                return Err(WriteFail::NoMemory(error));
            }
            self.faults = raised(self.faults);
            return Err(WriteFail::Failed);
        }
        if let Err(error) = self.bytes.extend_from_slice(piece) {
            return Err(WriteFail::NoMemory(error));
        }
        Ok(())
    }
}
