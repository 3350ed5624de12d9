//! The files that a run reads.

use std::io::{ErrorKind, Read};
use std::rt::Files;
use std::{fs, io};

/// An input: an open file, one that can't be opened, or none.
#[derive(Drop)]
pub enum InputFile<F> {
    Open(F),
    Missing,
    Absent,
}

/// Opens the file; one that can't be opened fails at its first read.
pub fn open<R: Files>(rt: &R, path: &str) -> InputFile<R::File> {
    match fs::open(rt, path) {
        Ok(file) => InputFile::Open(file),
        Err(_) => InputFile::Missing,
    }
}

impl<F: Read> Read for InputFile<F> {
    ghost use Rattle.lrkit_cli.specs.Files.{left_of};

    ghost remaining = { λ f. left_of F.remaining f };

    fn read(&mut self, buf: &mut [u8]) -> io::Result<usize> {
        match self {
            InputFile::Open(file) => file.read(buf),
            InputFile::Missing => Err(io::Error::from(ErrorKind::NotFound)),
            InputFile::Absent => Ok(0),
        }
    }
}
