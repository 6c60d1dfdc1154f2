use crate::{Files, MemFiles, MemSink, ReadFail, RealFiles, RealOut, Sink, WriteFail};
use dt_base::Text;
use std::alloc::{AllocError, Global};
use std::fs::Permissions;
use std::io::{ErrorKind, Write};
use std::os::unix::fs::PermissionsExt;
use std::test::Fail;
use std::{fs, io};

fn one_file(alloc: Global, name: &str, bytes: &[u8]) -> Result<Vec<(Text, Vec<u8>)>, AllocError> {
    let mut files = Vec::new(alloc);
    files.push((Text::make(alloc, name)?, bytes.to_vec(alloc)?))?;
    Ok(files)
}

#[test]
fn files_in_memory(rt: HostRuntime) -> Result<(), Fail> {
    let alloc = rt.alloc();
    let mut files = MemFiles::new(alloc, one_file(alloc, "a", b"xyz")?, [3, 5].to_vec(alloc)?);
    assert!(rt; matches!(&files.read("a", 3), Ok(bytes) if bytes.as_slice() == b"xyz".as_slice()));
    assert!(rt; matches!(&files.read("a", 2), Err(ReadFail::TooLong)));
    assert!(rt;
        matches!(&files.read("a", 3), Err(ReadFail::Failed)),
        "the third call fails"
    );
    assert!(rt; matches!(&files.read("b", 3), Err(ReadFail::Absent)));
    assert!(rt;
        matches!(&files.write("a", b"new"), Err(WriteFail::Failed)),
        "the fifth call fails"
    );
    assert!(rt; matches!(&files.read("a", 3), Ok(bytes) if bytes.as_slice() == b"xyz".as_slice()));
    assert!(rt; files.write("b", b"pq").is_ok());
    assert!(rt; matches!(&files.read("b", 9), Ok(bytes) if bytes.as_slice() == b"pq".as_slice()));
    assert!(rt; files.write("a", b"").is_ok());
    assert!(rt; matches!(&files.read("a", 9), Ok(bytes) if bytes.is_empty()));
    Ok(())
}

#[test]
fn a_sink_in_memory(rt: HostRuntime) -> Result<(), Fail> {
    let alloc = rt.alloc();
    let mut sink = MemSink::new(alloc, [2].to_vec(alloc)?);
    sink.reserve(64)?;
    assert!(rt; sink.put(b"abc").is_ok());
    assert!(rt;
        matches!(&sink.put(b"defgh"), Err(WriteFail::Failed)),
        "the second put fails"
    );
    assert!(rt; sink.put(b"!").is_ok());
    assert_eq!(rt; sink.bytes(), b"abcde!".as_slice());
    Ok(())
}

#[test]
fn files_of_the_machine(rt: HostRuntime) -> Result<(), Fail> {
    let name = "files_of_the_machine.txt";
    let absent = "no_such_file.txt";
    let mut files = RealFiles::new(rt.alloc(), &rt);
    assert!(rt; files.write(name, b"one\ntwo\n").is_ok());
    assert!(rt;
        matches!(&files.read(name, 8), Ok(bytes) if bytes.as_slice() == b"one\ntwo\n".as_slice())
    );
    assert!(rt; matches!(&files.read(name, 7), Err(ReadFail::TooLong)));
    assert!(rt; matches!(&files.read(absent, 7), Err(ReadFail::Absent)));
    assert!(rt;
        matches!(&files.read(".", 7), Err(ReadFail::Failed)),
        "a folder is no file"
    );
    assert!(rt; matches!(&files.write(".", b"x"), Err(WriteFail::Failed)));
    assert!(rt; files.write(name, b"abc").is_ok(), "over a longer one");
    assert!(rt; matches!(&files.read(name, 8), Ok(bytes) if bytes.as_slice() == b"abc".as_slice()));
    fs::set_permissions(&rt, name, Permissions::from_mode(0))?;
    assert!(rt;
        matches!(&files.read(name, 8), Err(ReadFail::Failed) | Ok(_)),
        "it may not be read, which does not hinder root"
    );
    fs::remove_file(&rt, name)?;
    Ok(())
}

#[test]
fn a_long_file_of_the_machine(rt: HostRuntime) -> Result<(), Fail> {
    let name = "a_long_file_of_the_machine.txt";
    let long = vec![in rt.alloc(); b'x'; 600_000]?;
    let mut files = RealFiles::new(rt.alloc(), &rt);
    assert!(rt; files.write(name, &long).is_ok());
    assert!(rt;
        matches!(&files.read(name, 600_000), Ok(bytes) if bytes.as_slice() == long.as_slice())
    );
    assert!(rt; matches!(&files.read(name, 599_999), Err(ReadFail::TooLong)));
    fs::remove_file(&rt, name)?;
    Ok(())
}

#[test]
fn a_writer_of_the_machine(rt: HostRuntime) -> Result<(), Fail> {
    let name = "a_writer_of_the_machine.txt";
    let mut out = RealOut::new(fs::create(&rt, name)?);
    assert!(rt; out.put(b"one\n").is_ok());
    assert!(rt; out.put(b"").is_ok());
    assert!(rt; out.put(b"two\n").is_ok());
    assert_eq!(rt; fs::read(&rt, name)?.as_slice(), b"one\ntwo\n".as_slice());
    let mut closed = RealOut::new(fs::open(&rt, name)?);
    assert!(rt;
        matches!(&closed.put(b"three"), Err(WriteFail::Failed)),
        "it was opened to be read"
    );
    fs::remove_file(&rt, name)?;
    Ok(())
}

/// A writer that takes one byte at a time, and may not be able to pass them on.
#[derive(Drop)]
struct Slow {
    taken: Vec<u8>,
    is_stuck: bool,
}

impl Write for Slow {
    fn write(&mut self, buf: &[u8]) -> io::Result<usize> {
        match buf.first() {
            Some(byte) => {
                self.taken.push(*byte)?;
                Ok(1)
            }
            None => Ok(0),
        }
    }

    fn flush(&mut self) -> io::Result<()> {
        if self.is_stuck {
            Err(io::Error::from(ErrorKind::StorageFull))
        } else {
            Ok(())
        }
    }
}

#[test]
fn a_slow_writer(rt: HostRuntime) -> Result<(), Fail> {
    let mut slow = Slow {
        taken: Vec::new(rt.alloc()),
        is_stuck: false,
    };
    let mut out = RealOut::new(&mut slow);
    assert!(rt; out.put(b"abc").is_ok());
    drop(out);
    assert_eq!(rt; slow.taken.as_slice(), b"abc".as_slice());
    slow.is_stuck = true;
    let mut stuck = RealOut::new(slow);
    assert!(rt; matches!(&stuck.put(b"d"), Err(WriteFail::Failed)));
    Ok(())
}
