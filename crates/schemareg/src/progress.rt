//! How the work goes on, told at a terminal.

use std::alloc::{AllocError, Global};
use std::io::Write;
use std::time::{Clock, Duration, Instant};

// After how many milliseconds it is told for the first time, and after how many again.
const FIRST: u64 = 1000;

const NEXT: u64 = 200;

// Of how many steps the clock is asked at one.
const STEPS: u64 = 64;

/// How many are done, and since when.
#[derive(Drop)]
pub struct Progress<'a, C: Clock> {
    clock: &'a C,
    // Whether anything is told.
    tells: bool,
    begun: Option<Instant>,
    told: Option<Instant>,
    done: u64,
    // Whether the line is there now.
    shown: bool,
}

impl<'a, C: Clock> Progress<'a, C> {
    /// Of nothing yet.
    pub fn new(clock: &'a C) -> Progress<'a, C> {
        Progress {
            clock,
            tells: false,
            begun: None,
            told: None,
            done: 0,
            shown: false,
        }
    }

    /// From now on. Nothing is told unless `tells`.
    pub fn begin(&mut self, tells: bool) {
        self.tells = tells;
        self.begun = if tells {
            Instant::now(self.clock).ok()
        } else {
            None
        };
        self.told = None;
        self.done = 0;
        self.shown = false;
    }

    /// One more is done, of so many, if that is known.
    pub fn step<E: Write>(&mut self, alloc: Global, total: Option<usize>, errors: &mut E) {
        self.done = self.done.saturating_add(1);
        if !self.tells || self.done % STEPS != 0 {
            return;
        }
        let (Some(begun), Ok(now)) = (self.begun, Instant::now(self.clock)) else {
            return;
        };
        let passed = now.saturating_duration_since(begun);
        if self.is_due(passed, now) {
            self.told = Some(now);
            self.shown = true;
            if let Ok(line) = line(alloc, self.done, total, passed) {
                let _ = errors.write_all(line.as_bytes());
            }
        }
    }

    fn is_due(&self, passed: Duration, now: Instant) -> bool {
        match self.told {
            Some(told) => milliseconds(now.saturating_duration_since(told)) >= NEXT,
            None => milliseconds(passed) >= FIRST,
        }
    }

    /// Takes the line away, if it is there.
    pub fn clear<E: Write>(&mut self, errors: &mut E) {
        if self.shown {
            self.shown = false;
            let _ = errors.write_all(b"\r\x1b[K");
        }
    }
}

// `640 of 1000, 320 a second`, in place of the line before.
fn line(
    alloc: Global,
    done: u64,
    total: Option<usize>,
    passed: Duration,
) -> Result<String, AllocError> {
    let rate = rate(done, passed);
    match total {
        Some(total) => format!(in alloc; "\r\x1b[K{done} of {total}, {rate} a second"),
        None => format!(in alloc; "\r\x1b[K{done}, {rate} a second"),
    }
}

// How many a second.
fn rate(done: u64, passed: Duration) -> u64 {
    let passed = milliseconds(passed);
    if passed == 0 {
        return 0;
    }
    done.saturating_mul(1000) / passed
}

fn milliseconds(time: Duration) -> u64 {
    time.as_secs()
        .saturating_mul(1000)
        .saturating_add(u64::from(time.subsec_millis()))
}
