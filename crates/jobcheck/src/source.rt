// The job that is checked, and where its commands come from.
use std::alloc::{AllocError, Global};

const ESC: u8 = 0x1b;

// A command of the job that was made of a line of a source.
#[derive(Clone, Copy)]
pub(crate) struct Line {
    pub(crate) place: usize,
    pub(crate) file: usize,
    pub(crate) number: u64,
}

#[derive(Drop)]
pub(crate) struct Source {
    alloc: Global,
    pub(crate) job: Vec<u8>,
    pub(crate) files: Vec<String>,
    pub(crate) lines: Vec<Line>,
}

impl Source {
    pub(crate) fn new(alloc: Global) -> Source {
        Source {
            alloc,
            job: Vec::new(alloc),
            files: Vec::new(alloc),
            lines: Vec::new(alloc),
        }
    }

    // Adds a file: a job of bytes as it is, and of a source each line as a command.
    pub(crate) fn add(&mut self, file: String, bytes: &[u8]) -> Result<(), AllocError> {
        if bytes.contains(&ESC) {
            self.job.extend_from_slice(bytes)?;
        } else {
            for (number, line) in (1u64..).zip(bytes.split(|b| *b == b'\n')) {
                self.add_line(number, line)?;
            }
        }
        self.files.push(file)?;
        Ok(())
    }

    // Empty lines, and lines that begin with #, are left out.
    fn add_line(&mut self, number: u64, line: &[u8]) -> Result<(), AllocError> {
        if line.is_empty() || line.starts_with(b"#") {
            return Ok(());
        }
        self.lines.push(Line {
            place: self.job.len(),
            file: self.files.len(),
            number,
        })?;
        self.job.push(ESC)?;
        self.job.extend_from_slice(line)?;
        self.job.extend_from_slice(b"\n\0")
    }

    // The line of which the command at a place was made.
    pub(crate) fn line_at(&self, place: usize) -> Option<Line> {
        self.lines.iter().copied().find(|line| line.place == place)
    }
}
