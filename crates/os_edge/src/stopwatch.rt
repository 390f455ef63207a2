ghost use Rattle.std.specs.Prelude.{◌≡◌, ◌-◌, ◌/◌, ◌^◌, min};
ghost use Rattle.std.specs.Duration.{as_nanos};

use std::io;
use std::rt::Clock;
use std::time::{Duration, Instant};

/// How long it has run, by the monotonic clock.
#[derive(Drop)]
pub(crate) struct Stopwatch {
    start: Instant,
    last: u64,
}

impl Stopwatch {
    /// One that starts now.
    pub(crate) fn start(clock: &impl Clock) -> io::Result<Self> {
        Ok(Stopwatch {
            start: Instant::now(clock)?,
            last: 0,
        })
    }

    /// Milliseconds since it started. Where the clock cannot be read, it is the last value again, which is 0 at first.
    pub(crate) fn millis(&mut self, clock: &impl Clock) -> u64
        ensures { result ≡ self.new.last }
    {
        if let Ok(now) = Instant::now(clock) {
            self.last = whole_millis(now.duration_since(self.start));
        }
        self.last
    }
}

fn whole_millis(passed: Duration) -> u64
    ensures { result ≡ min (as_nanos passed / 1_000_000) (2 ^ 64 - 1) }
{
    u64::try_from(passed.as_millis()).unwrap_or(u64::MAX)
}
