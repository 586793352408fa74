//! When some rounds came to a place.

use crate::fault::Fault;
use std::alloc::{AllocError, Global};
use std::time::{Clock, Duration, Instant};

/// How many rounds are timed at most, and how many pass from one to the next at least in a long run.
const SAMPLES: u32 = 1000;

const SPAN: u32 = 64;

/// When every so many rounds came to a place, counted from one moment for all threads.
#[derive(Drop)]
pub struct Times {
    every: u32,
    next: u32,
    count: usize,
    times: Vec<Duration>,
}

/// One round in so many is timed.
fn every(rounds: u32) -> u32 {
    if rounds < 4 * SPAN {
        1
    } else {
        (rounds / SAMPLES).max(SPAN)
    }
}

impl Times {
    /// Room for the times of so many rounds.
    pub fn new(alloc: Global, rounds: u32) -> Result<Times, AllocError> {
        let every = every(rounds);
        let room = rounds / every.max(1);
        let times = vec![in alloc; Duration::ZERO; room as usize]?;
        Ok(Times {
            every,
            next: every,
            count: 0,
            times,
        })
    }

    /// Notes that a round has come to the place, where it is one of those that are timed. It takes no memory.
    pub fn note<R: Clock>(&mut self, rt: &R, begun: Instant, round: u32) -> Result<(), Fault> {
        if round != self.next {
            return Ok(());
        }
        self.next = self.next.saturating_add(self.every);
        if let Some(time) = self.times.get_mut(self.count) {
            *time = begun.elapsed(rt).map_err(|_| Fault::NoClock)?;
        }
        self.count = self.count.saturating_add(1);
        Ok(())
    }

    /// These times, or the other ones where nothing was noted.
    pub fn or(self, other: Times) -> Times {
        if self.count == 0 { other } else { self }
    }

    /// The median of how long after the `earlier` ones these times were.
    pub fn median_after(&self, alloc: Global, earlier: &Times) -> Result<Duration, AllocError> {
        let pairs = self.times.iter().zip(earlier.times.iter());
        let mut spans: Vec<Duration> = pairs
            .map(|(later, earlier)| later.saturating_sub(*earlier))
            .collect(alloc)?;
        spans.sort_unstable();
        let middle = spans.len() / 2;
        Ok(spans.get(middle).copied().unwrap_or(Duration::ZERO))
    }

    /// The rounds a second in the quickest twentieth of the spans between two times. There is no answer where a span
    /// has few rounds: it would tell how fast a receiver takes what has piled up.
    pub fn quick(&self, alloc: Global) -> Result<Option<f64>, AllocError> {
        if self.every < SPAN {
            return Ok(None);
        }
        let pairs = self.times.iter().zip(self.times.iter().skip(1));
        let mut spans: Vec<Duration> = pairs
            .map(|(earlier, later)| later.saturating_sub(*earlier))
            .collect(alloc)?;
        spans.sort_unstable();
        let place = spans.len() / 20;
        Ok(
            spans
                .get(place)
                .map(|span| f64::from(self.every) / span.as_secs_f64()),
        )
    }
}
