//! The clock: how long something takes, and when the time of a measurement is up.

use crate::faults::WorkFault;
use nb_lines::{ProgressMeter, Seconds};
use std::rt::Clock;
use std::time::{Duration, Instant};

/// A time in nanoseconds. 2^64 of them are 584 years.
fn nanoseconds_of(time: Duration) -> u64 {
    u64::try_from(time.as_nanos()).unwrap_or(u64::MAX)
}

/// The time as it is.
pub(crate) fn now<R: Clock>(rt: &R) -> Result<Instant, WorkFault> {
    Ok(Instant::now(rt)?)
}

/// How many nanoseconds were spent since then.
pub(crate) fn nanoseconds_since<R: Clock>(rt: &R, start: Instant) -> Result<u64, WorkFault> {
    Ok(nanoseconds_of(start.elapsed(rt)?))
}

/// A measurement that goes on for a time.
#[derive(Clone, Copy)]
pub(crate) struct Watch {
    start: Instant,
    time: Duration,
    /// How much of it was spent at the last look at the clock.
    spent: Duration,
    seconds: Seconds,
}

impl Watch {
    /// Begins now.
    pub(crate) fn start<R: Clock>(
        rt: &R,
        time: Duration,
        progress: ProgressMeter,
    ) -> Result<Watch, WorkFault> {
        Ok(Watch {
            start: Instant::now(rt)?,
            time,
            spent: Duration::ZERO,
            seconds: Seconds::new(progress, time),
        })
    }

    /// Looks at the clock, tells progress, and answers whether the time is up.
    pub(crate) fn is_over<R: Clock + Eprint>(&mut self, rt: &R) -> Result<bool, WorkFault> {
        self.spent = self.start.elapsed(rt)?;
        self.seconds.tell(rt, self.spent);
        Ok(self.spent >= self.time)
    }

    /// How many nanoseconds were spent at the last look at the clock.
    pub(crate) fn nanoseconds(&self) -> u64 {
        nanoseconds_of(self.spent)
    }
}
