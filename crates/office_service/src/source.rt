//! What a counter says and is told by: a pipe, or the terminal.
use std::io;
use std::io::{Read, Write};

/// What a counter says.
#[derive(Drop)]
pub enum Source<P: Read, T: Read> {
    Pipe(P),
    Terminal(T),
}

impl<P: Read, T: Read> Read for Source<P, T> {
    fn read(&mut self, buf: &mut [u8]) -> io::Result<usize> {
        match self {
            Source::Pipe(pipe) => pipe.read(buf),
            Source::Terminal(terminal) => terminal.read(buf),
        }
    }
}

/// What a counter is told by.
#[derive(Drop)]
pub enum Target<P: Write, T: Write> {
    Pipe(P),
    Terminal(T),
}

impl<P: Write, T: Write> Write for Target<P, T> {
    fn write(&mut self, buf: &[u8]) -> io::Result<usize> {
        match self {
            Target::Pipe(pipe) => pipe.write(buf),
            Target::Terminal(terminal) => terminal.write(buf),
        }
    }

    fn flush(&mut self) -> io::Result<()> {
        match self {
            Target::Pipe(pipe) => pipe.flush(),
            Target::Terminal(terminal) => terminal.flush(),
        }
    }
}
