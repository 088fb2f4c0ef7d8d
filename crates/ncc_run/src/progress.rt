//! How far a long run is, on a line of a terminal.

use itoa::Buffer;
use ncc_lines::Progress;
use std::io;
use std::io::Write;
use std::rt::Clock;
use std::time::{Duration, Instant};

/// How many milliseconds work lasts before it is shown.
const FIRST: u64 = 1_000;

/// How many milliseconds a line stands before it is written anew.
const NEXT: u64 = 200;

/// Which of the program's outputs are terminals.
#[derive(Clone, Copy)]
pub struct Terminals {
    pub out: bool,
    pub err: bool,
}

/// What is shown on the error output besides what every run says.
#[derive(Clone, Copy)]
pub struct Shown {
    /// How far long work is.
    pub progress: bool,
    /// Why something failed.
    pub reasons: bool,
    /// Whether each answer of several files goes out at once, since the output is a terminal that shows the progress too.
    pub at_once: bool,
}

/// What is done of what there is in all, on a line of a terminal that is written anew from time to time and goes in
/// the end. What can't be written or timed is left out.
#[derive(Drop)]
pub struct ProgressLine<'a, R: Clock, E: Write> {
    clock: &'a R,
    err: &'a mut E,
    next: Option<Instant>,
    drawn: bool,
    /// Bytes that are done.
    bytes: u64,
}

impl<'a, R: Clock, E: Write> ProgressLine<'a, R, E> {
    /// A line that shows nothing yet, and never does unless `show`.
    pub fn new(clock: &'a R, err: &'a mut E, shown: bool) -> ProgressLine<'a, R, E> {
        let next = match Instant::now(clock) {
            Ok(now) if shown => now.checked_add(Duration::from_millis(FIRST)),
            _ => None,
        };
        ProgressLine {
            clock,
            err,
            next,
            drawn: false,
            bytes: 0,
        }
    }

    /// Writes the line over what it showed before.
    fn draw(&mut self, done: u64, all: u64, unit: &[u8]) -> io::Result<()> {
        let mut digits = Buffer::new();
        self.err.write_all(b"\r")?;
        self.err.write_all(digits.format(done).as_bytes())?;
        self.err.write_all(b" of ")?;
        self.err.write_all(digits.format(all).as_bytes())?;
        self.err.write_all(unit)
    }

    /// Writes the line where it is time.
    fn show(&mut self, done: u64, all: u64, unit: &[u8]) {
        let Some(next) = self.next else {
            return;
        };
        let Ok(now) = Instant::now(self.clock) else {
            return;
        };
        if now < next {
            return;
        }
        self.next = now.checked_add(Duration::from_millis(NEXT));
        self.drawn = true;
        let _ = self.draw(done, all, unit);
    }
}

impl<'a, R: Clock, E: Write> ProgressLine<'a, R, E> {
    /// Shows that so many files of all are done.
    pub fn files(&mut self, done: u64, all: u64) {
        self.show(done, all, b" files");
    }

    /// Where other lines are written, once the line is taken away.
    pub fn other(&mut self) -> &mut E {
        if self.drawn {
            let _ = self.err.write_all(b"\r\x1b[K");
        }
        self.drawn = false;
        self.err
    }
}

impl<'a, R: Clock, E: Write> Progress for ProgressLine<'a, R, E> {
    fn rows(&mut self, done: u64, all: u64) {
        self.show(done, all, b" rows");
    }

    fn bytes(&mut self, more: u64, all: u64) {
        self.bytes = self.bytes.saturating_add(more);
        self.show(self.bytes, all, b" bytes");
    }

    /// Takes the line away.
    fn end(&mut self) {
        self.other();
        self.next = None;
    }
}
