// The clock, and standard output.
use crate::faults::counted;
use lama_host::{Clock, Failed, Sink};
use std::io;
use std::io::Write;
use std::rt::Clock as SystemClock;
use std::time::Instant;

/// The time in milliseconds since the clock was made. Where the system gives no time it repeats its
/// last answer, which is 0 where there is none.
#[derive(Drop)]
pub struct RealClock<'a, R: SystemClock> {
    rt: &'a R,
    begun: Option<Instant>,
    last: u64,
}

impl<'a, R: SystemClock> RealClock<'a, R> {
    /// A clock that begins now.
    pub fn new(rt: &'a R) -> RealClock<'a, R> {
        RealClock {
            rt,
            begun: Instant::now(rt).ok(),
            last: 0,
        }
    }

    fn elapsed(&self) -> Option<u64> {
        let elapsed = self.begun?.elapsed(self.rt).ok()?;
        u64::try_from(elapsed.as_millis()).ok()
    }
}

impl<'a, R: SystemClock> Clock for RealClock<'a, R> {
    ghost use Rattle.std.specs.Prelude.{None};

    ghost last = { λ c. c.last };

    ghost answers = { λ _. None };

    fn now(&mut self) -> u64 {
        if let Some(elapsed) = self.elapsed() {
            self.last = self.last.max(elapsed);
        }
        self.last
    }
}

/// Standard output.
#[derive(Drop)]
pub struct RealSink<'a, R: Print> {
    rt: &'a R,
    faults: u64,
}

impl<'a, R: Print> RealSink<'a, R> {
    /// Standard output, of which nothing has failed yet.
    pub fn new(rt: &'a R) -> RealSink<'a, R> {
        RealSink { rt, faults: 0 }
    }
}

impl<'a, R: Print> Sink for RealSink<'a, R> {
    ghost use Rattle.std.specs.Prelude.{None};

    ghost taken = { λ _. None };

    ghost faults = { λ s. s.faults };

    fn put(&mut self, bytes: &[u8]) -> Result<(), Failed> {
        let answer = io::writer(self.rt).write_all(bytes);
        counted(&mut self.faults, answer)
    }
}
