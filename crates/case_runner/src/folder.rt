ghost use Rattle.std.specs.Prelude.{Some};

use dt_base::Text;
use dt_world::{Files, MemFiles, ReadFail, WriteFail};
use std::alloc::{AllocError, Global};

/// Files in memory that remember which names were written.
#[derive(Drop)]
pub struct Folder {
    alloc: Global,
    files: MemFiles,
    written: Vec<Text>,
}

impl Folder {
    /// These files, of which none is written yet.
    pub fn new(alloc: Global, files: Vec<(Text, Vec<u8>)>) -> Folder {
        Folder {
            alloc,
            files: MemFiles::new(alloc, files, Vec::new(alloc)),
            written: Vec::new(alloc),
        }
    }

    /// The names that were written, also of a write that failed.
    pub fn written(&self) -> &[Text] {
        &self.written
    }

    /// The bytes of a file, if it is there.
    pub fn bytes(&mut self, name: &str) -> Result<Option<Vec<u8>>, AllocError> {
        match self.files.read(name, u64::MAX) {
            Ok(bytes) => Ok(Some(bytes)),
            Err(ReadFail::NoMemory(error)) => Err(error),
            Err(_) => Ok(None),
        }
    }
}

/// One name more.
fn remember(alloc: Global, names: &mut Vec<Text>, name: &str) -> Result<(), AllocError> {
    names.push(Text::make(alloc, name)?)?;
    Ok(())
}

impl Files for Folder {
    ghost held = { λ f. Some f.files.files };

    ghost read_faults = { λ f. f.files.read_faults };

    ghost write_faults = { λ f. f.files.write_faults };

    ghost misses = { λ f. 0 };

    ghost longs = { λ f. 0 };

    fn read(&mut self, name: &str, limit: u64) -> Result<Vec<u8>, ReadFail> {
        self.files.read(name, limit)
    }

    fn write(&mut self, name: &str, bytes: &[u8]) -> Result<(), WriteFail> {
        match remember(self.alloc, &mut self.written, name) {
            Ok(()) => self.files.write(name, bytes),
            Err(error) => Err(WriteFail::NoMemory(error)),
        }
    }
}
