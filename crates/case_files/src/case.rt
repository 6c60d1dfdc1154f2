use dt_base::Text;

/// The name of the file that holds a case's script.
pub const SCRIPT_NAME: &str = "script.dq";

/// A script or words, the files that are there, and what a run must put and write.
#[derive(Drop)]
pub struct Case {
    pub name: Text,
    /// The line that begins the case, counted from 1.
    pub line: usize,
    /// The script, behind the statements that stand ahead of each script of its file. Where it is
    /// `None`, there is no file of a script.
    pub script: Option<Vec<u8>>,
    /// The words of the command line, without the program's name.
    pub words: Vec<String>,
    /// The exit number, where the case says it; `wanted_status` gives it always.
    pub status: Option<u8>,
    /// What is put on standard output.
    pub out: Vec<u8>,
    /// What is put on standard error.
    pub err: Vec<u8>,
    /// The files that are there before the run, without the script.
    pub given: Vec<(Text, Vec<u8>)>,
    /// The files that the run must have written, with what they hold then.
    pub written: Vec<(Text, Vec<u8>)>,
}

impl Case {
    /// The exit number of a right run: as the case says, or else 1 where the last line that is
    /// wanted on standard error tells a fault, and 0 where it does not.
    pub fn wanted_status(&self) -> u8 {
        match self.status {
            Some(number) => number,
            None => u8::from(last_line(&self.err).starts_with(b"Error ")),
        }
    }
}

/// The last line of some bytes, with or without its line feed.
fn last_line(bytes: &[u8]) -> &[u8] {
    let mut last = bytes;
    for line in bytes.split_inclusive(|b| *b == b'\n') {
        last = line;
    }
    last
}
