//! Runs over files, and over those that earlier runs made.

use crate::held::{File, content};
use crate::mismatch::{Mismatch, file_made, other_status, other_text};
use crate::transcript::{Wanted, read_wanted};
use mufom_command::run;
use mufom_host::{Host, MemHost};
use mufom_numbers::{Bytes, List, NoMemory, Text};
use std::alloc::{AllocError, Global};

/// How many bytes a host has room for.
const ROOM: usize = 1_048_576;

/// What is before the arguments of a run.
const PROMPT: &str = "\n$ ";

/// What is before a remark, which goes on to the next run.
const REMARK: &str = "\n# ";

/// The most arguments that a line of a test has.
const MOST_WORDS: usize = 1 << 16;

/// Files, and those that runs over them made.
#[derive(Drop)]
pub struct Session<'a> {
    alloc: Global,
    files: &'a [File],
    made: List<(Text, Bytes)>,
}

fn add(
    alloc: Global,
    list: &mut List<(Text, Bytes)>,
    name: &str,
    bytes: &[u8],
) -> Result<(), NoMemory> {
    let name = Text::from_str(alloc, name)?;
    let bytes = Bytes::from_slice(alloc, bytes)?;
    list.push((name, bytes))
}

fn add_files(
    alloc: Global,
    list: &mut List<(Text, Bytes)>,
    files: &[File],
) -> Result<(), NoMemory> {
    for (name, held) in files {
        let bytes = content(alloc, held)?;
        add(alloc, list, name, &bytes)?;
    }
    Ok(())
}

fn add_made(
    alloc: Global,
    list: &mut List<(Text, Bytes)>,
    made: &[(Text, Bytes)],
) -> Result<(), NoMemory> {
    for (name, bytes) in made.iter().rev() {
        add(alloc, list, name.as_str(), bytes.as_slice())?;
    }
    Ok(())
}

fn numbers(alloc: Global, calls: &[u64]) -> Result<List<u64>, NoMemory> {
    let mut list = List::new(alloc);
    for call in calls {
        list.push(*call)?;
    }
    Ok(list)
}

/// A host with these files, on which the reads and the writes with these numbers fail.
pub fn memory_host(
    alloc: Global,
    files: &[File],
    reads: &[u64],
    writes: &[u64],
) -> Result<MemHost, NoMemory> {
    let mut list = List::new(alloc);
    add_files(alloc, &mut list, files)?;
    let reads = numbers(alloc, reads)?;
    let writes = numbers(alloc, writes)?;
    MemHost::new(alloc, list, reads, writes, ROOM)
}

// The arguments of a line, with one space between each two. An empty line has none.
fn words_of(alloc: Global, line: &str) -> Result<Vec<String>, AllocError> {
    let mut words = Vec::new(alloc);
    if line.is_empty() {
        return Ok(words);
    }
    for word in line.split(' ') {
        words.push(word.to_string(alloc)?)?;
    }
    Ok(words)
}

/// The status that a run with the arguments of a line ends with.
pub fn run_line<H: Host>(alloc: Global, host: &mut H, line: &str) -> Result<u8, NoMemory> {
    let words = words_of(alloc, line)?;
    if words.len() > MOST_WORDS {
        return Err(NoMemory);
    }
    Ok(run(alloc, words.as_slice(), host).status())
}

// Whether a file is made or begun.
fn has_file(host: &MemHost) -> bool {
    host.made().is_some() || host.making().is_some()
}

// Compares what a run printed and made with what it was to.
fn compare(
    alloc: Global,
    line: &str,
    host: &MemHost,
    status: u8,
    wanted: &Wanted,
) -> Result<(), Mismatch> {
    if status != wanted.status {
        return Err(other_status(alloc, line, status, wanted.status));
    }
    let text = wanted.text.as_slice();
    let (out, err): (&[u8], &[u8]) = if status == 0 {
        (text, b"")
    } else {
        (b"", text)
    };
    if host.out() != out || host.err() != err {
        return Err(other_text(alloc, line, host.out(), host.err()));
    }
    if !text.is_empty() && has_file(host) {
        return Err(file_made(alloc, line));
    }
    Ok(())
}

impl<'a> Session<'a> {
    /// A session with these files.
    pub fn new(alloc: Global, files: &'a [File]) -> Session<'a> {
        Session {
            alloc,
            files,
            made: List::new(alloc),
        }
    }

    // A host with the files of the session. Those that were made last come first.
    fn host(&self) -> Result<MemHost, NoMemory> {
        let alloc = self.alloc;
        let mut list = List::new(alloc);
        add_made(alloc, &mut list, self.made.as_slice())?;
        add_files(alloc, &mut list, self.files)?;
        MemHost::new(alloc, list, List::new(alloc), List::new(alloc), ROOM)
    }

    /// Adds a file of these bytes, as if a run had made it.
    pub fn add(&mut self, name: &str, bytes: &[u8]) -> Result<(), NoMemory> {
        add(self.alloc, &mut self.made, name, bytes)
    }

    // Keeps the file that a run made.
    fn keep(&mut self, host: &MemHost) -> Result<(), NoMemory> {
        let Some((name, bytes)) = host.made() else {
            return Ok(());
        };
        let Ok(name) = std::str::from_utf8(name) else {
            return Ok(());
        };
        self.add(name, bytes)
    }

    fn replay_run(&mut self, line: &str, text: &str) -> Result<(), Mismatch> {
        let wanted = read_wanted(self.alloc, text)?;
        let mut host = self.host()?;
        let status = run_line(self.alloc, &mut host, line)?;
        compare(self.alloc, line, &host, status, &wanted)?;
        Ok(self.keep(&host)?)
    }

    /// Runs the lines of a transcript in order. Each prints what follows it, and ends as it says.
    pub fn replay(&mut self, transcript: &str) -> Result<(), Mismatch> {
        let Some((_, runs)) = transcript.split_once(PROMPT) else {
            return Err(Mismatch::NoRun);
        };
        for run in runs.split(PROMPT) {
            let (run, _) = run.split_once(REMARK).unwrap_or((run, ""));
            let (line, text) = run.split_once('\n').unwrap_or((run, ""));
            let text = text.strip_suffix('\n').unwrap_or(text);
            self.replay_run(line, text)?;
        }
        Ok(())
    }

    /// The bytes of the file that runs made last; none if they made no file.
    pub fn made(&self) -> &[u8] {
        match self.made.as_slice() {
            [.., (_, bytes)] => bytes.as_slice(),
            [] => b"",
        }
    }
}

/// Runs the lines of a transcript over these files.
pub fn replay(alloc: Global, files: &[File], transcript: &str) -> Result<(), Mismatch> {
    Session::new(alloc, files).replay(transcript)
}
