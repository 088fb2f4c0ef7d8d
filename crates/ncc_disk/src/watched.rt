//! A writer or reader that remembers why it failed.

use crate::reasons::{Reason, reason_of};
use std::io;
use std::io::{Read, Write};

/// A writer or reader, and why it failed last.
#[derive(Drop)]
pub struct Watched<W> {
    inner: W,
    reason: Option<Reason>,
}

impl<W> Watched<W> {
    pub fn new(inner: W) -> Watched<W> {
        Watched {
            inner,
            reason: None,
        }
    }

    /// Why it failed last, if it did.
    pub fn reason(&self) -> Option<Reason> {
        self.reason
    }

    pub fn into_inner(self) -> W {
        let Watched { inner, reason: _ } = self;
        inner
    }
}

impl<W: Write> Write for Watched<W> {
    ghost contents = { λ w. W.contents w.inner };

    fn write(&mut self, bytes: &[u8]) -> io::Result<usize> {
        match self.inner.write(bytes) {
            Ok(n) => Ok(n),
            Err(error) => {
                self.reason = Some(reason_of(error.kind()));
                Err(error)
            }
        }
    }

    fn flush(&mut self) -> io::Result<()> {
        match self.inner.flush() {
            Ok(()) => Ok(()),
            Err(error) => {
                self.reason = Some(reason_of(error.kind()));
                Err(error)
            }
        }
    }
}

impl<R: Read> Read for Watched<R> {
    ghost remaining = { λ w. R.remaining w.inner };

    fn read(&mut self, bytes: &mut [u8]) -> io::Result<usize> {
        match self.inner.read(bytes) {
            Ok(n) => Ok(n),
            Err(error) => {
                self.reason = Some(reason_of(error.kind()));
                Err(error)
            }
        }
    }
}
