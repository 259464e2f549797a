//! A terminal at which long work is watched.

use shell::Watch;
use std::io::Write;
use std::rt::Clock;
use std::time::{Duration, Instant};

/// For how many milliseconds nothing is said at least.
const PAUSE_MILLIS: u64 = 100;

/// What somebody at a terminal sees of long work.
#[derive(Clone, Copy, Debug)]
pub struct Terminal {
    /// Whether standard error is a terminal, so that progress is shown there.
    pub shows_progress: bool,
    /// The bytes of the input, where it is a file.
    pub input_bytes: Option<u64>,
}

/// Says on a terminal how far work is: documents, how many a second, and how much of the input is done.
#[derive(Drop)]
pub(crate) struct Progress<'a, R, W> {
    clock: &'a R,
    errors: &'a mut W,
    /// When it began; None where nothing is shown.
    began: Option<Instant>,
    /// How long after that something was said last.
    said: Duration,
    input_bytes: Option<u64>,
}

impl<'a, R: Clock, W: Write> Progress<'a, R, W> {
    pub(crate) fn new(clock: &'a R, terminal: &Terminal, errors: &'a mut W) -> Progress<'a, R, W> {
        let began = if terminal.shows_progress {
            Instant::now(clock).ok()
        } else {
            None
        };
        Progress {
            clock,
            errors,
            began,
            said: Duration::ZERO,
            input_bytes: terminal.input_bytes,
        }
    }

    /// Ends the line, if there is one.
    pub(crate) fn end(&mut self) {
        if self.began.is_some() && !self.said.is_zero() {
            let _ = writeln!(self.errors);
        }
    }

    /// Writes the line anew. Where that fails, work goes on.
    fn say(&mut self, documents: u64, bytes: u64, past: Duration) {
        let rate = per_second(documents, past);
        let _ = write!(self.errors, "\r{documents} documents, {rate} a second");
        if let Some(whole) = self.input_bytes {
            let _ = write!(self.errors, ", {} % done", percent(bytes, whole));
        }
        let _ = self.errors.flush();
    }
}

impl<'a, R: Clock, W: Write> Watch for Progress<'a, R, W> {
    fn done(&mut self, documents: u64, bytes: u64) {
        let Some(began) = self.began else {
            return;
        };
        let Ok(past) = began.elapsed(self.clock) else {
            return;
        };
        if past
            >= self
                .said
                .saturating_add(Duration::from_millis(PAUSE_MILLIS))
        {
            self.said = past;
            self.say(documents, bytes, past);
        }
    }
}

/// How many a second.
fn per_second(documents: u64, past: Duration) -> u64 {
    let milliseconds = u64::try_from(past.as_millis()).unwrap_or(u64::MAX).max(1);
    documents.saturating_mul(1_000) / milliseconds
}

/// How much of a whole, in hundredths: at most 100.
fn percent(part: u64, whole: u64) -> u64 {
    (part.saturating_mul(100) / whole.max(1)).min(100)
}
