//! Readers and writers that give and take little at a time, and that fail.
use std::alloc::Global;
use std::io::{self, ErrorKind, Read, Write};

/// A reader that gives at most a given number of bytes at each read. Two of its reads may fail.
#[derive(Drop)]
pub struct Pieces<'a> {
    left: &'a [u8],
    most: usize,
    reads: u32,
    interrupted: u32,
    failing: u32,
}

impl<'a> Pieces<'a> {
    pub fn new(left: &'a [u8], most: usize) -> Pieces<'a> {
        Pieces {
            left,
            most,
            reads: 0,
            interrupted: u32::MAX,
            failing: u32::MAX,
        }
    }

    /// The reader, whose read of this number, counted from 1, fails.
    pub fn failing_at(self, failing: u32) -> Pieces<'a> {
        Pieces { failing, ..self }
    }

    /// The reader, whose read of this number is interrupted.
    pub fn interrupted_at(self, interrupted: u32) -> Pieces<'a> {
        Pieces {
            interrupted,
            ..self
        }
    }
}

impl<'a> Read for Pieces<'a> {
    fn read(&mut self, buf: &mut [u8]) -> io::Result<usize> {
        self.reads = self.reads.saturating_add(1);
        if self.reads == self.interrupted {
            return Err(io::Error::from(ErrorKind::Interrupted));
        }
        if self.reads == self.failing {
            return Err(io::Error::from(ErrorKind::Other));
        }
        let count = self.left.len().min(buf.len()).min(self.most);
        let (front, rest) = self.left.split_at(count);
        buf[..count].copy_from_slice(front);
        self.left = rest;
        Ok(count)
    }
}

/// A writer that takes `room` bytes, a given number at most at each write, and then fails.
#[derive(Drop)]
pub struct Narrow {
    taken: Vec<u8>,
    most: usize,
    room: usize,
}

impl Narrow {
    pub fn new(alloc: Global, most: usize, room: usize) -> Narrow {
        Narrow {
            taken: Vec::new(alloc),
            most,
            room,
        }
    }

    /// The bytes that it took.
    pub fn taken(&self) -> &[u8] {
        self.taken.as_slice()
    }
}

impl Write for Narrow {
    fn write(&mut self, buf: &[u8]) -> io::Result<usize> {
        let count = buf.len().min(self.most).min(self.room);
        if count == 0 {
            return Err(io::Error::from(ErrorKind::Other));
        }
        self.taken.extend_from_slice(&buf[..count])?;
        self.room -= count;
        Ok(count)
    }

    fn flush(&mut self) -> io::Result<()> {
        Ok(())
    }
}
