//! A source that gives a little at a time, and fails.

use std::io;
use std::io::{ErrorKind, Read};

/// A reader that gives at most so many bytes in a call, and fails where it has given so many in
/// all: once, or from there on.
#[derive(Drop)]
pub struct Drip<'a> {
    pub left: &'a [u8],
    pub step: usize,
    pub until_failure: usize,
    pub fails_once: bool,
}

impl Read for Drip<'_> {
    fn read(&mut self, buf: &mut [u8]) -> io::Result<usize> {
        if self.until_failure == 0 {
            if self.fails_once {
                self.until_failure = usize::MAX;
            }
            return Err(io::Error::from(ErrorKind::TimedOut));
        }
        let count = buf
            .len()
            .min(self.step)
            .min(self.left.len())
            .min(self.until_failure);
        buf[..count].copy_from_slice(&self.left[..count]);
        self.left = &self.left[count..];
        self.until_failure -= count;
        Ok(count)
    }
}
