//! Rests behind what took long.

ghost use Rattle.std.specs.Prelude.{◌≡◌, ◌≢◌, ◌<◌, ◌≤◌, ◌*◌, ◌/◌, ◌-◌, ◌↔◌, None, IfSome, IsSome, IsTrue, true, false, min, max};
ghost use Rattle.std.specs.Duration.{as_nanos};
ghost use Rattle.std.specs.Time.{instant_nanos};

use crate::tuning::{
    LONGEST_REST, LONGEST_REST_OF_END, SHORT_TURN, TIMES_OF_END, TIMES_OF_LULL, TIMES_OF_TURN,
};
use std::time::{Duration, Instant};

/// The rest of a connection behind a turn of its own, or an end of a round for its sake, that took long.
#[derive(Clone, Copy, Debug)]
pub struct Rest {
    /// When it is over.
    until: Instant,
    /// It is over too where nobody else was ready for so long.
    lull: Duration,
    /// How many turns there had been of those beside whom it rests, when it began.
    turns: u64,
    /// It gave way: it rests before its next request. Else it rests amid a request.
    pub gives_way: bool,
}

impl Rest {
    ghost use Rattle.sockets.specs.Rest.{Begins};

    /// That behind a turn that took so long, from now on. Behind a short one there is none.
    pub(crate) fn behind_turn(now: Instant, took: Duration, turns: u64) -> Option<Rest>
        ensures short { as_nanos took ≤ 1_000_000 → result ≡ None }
        ensures some { IfSome result (λ rest.
            Begins rest now (min (as_nanos took * 200) 10_000_000_000)
            (max (as_nanos took / 10) 1_000_000) turns false) }
    {
        let time = rest_behind(took)?;
        Some(Rest {
            until: now.checked_add(time)?,
            lull: lull_behind(took),
            turns,
            gives_way: false,
        })
    }

    /// That of a connection that gave way, behind an end of a round that took so long, from now on.
    pub(crate) fn behind_end(now: Instant, took: Duration, turns: u64) -> Option<Rest>
        ensures { IfSome result (λ rest.
            Begins rest now (min (as_nanos took * 20) 100_000_000) 0 turns true) }
    {
        Some(Rest {
            until: now.checked_add(rest_behind_end(took))?,
            lull: Duration::ZERO,
            turns,
            gives_way: true,
        })
    }

    /// Whether others ask on: where nobody else was ready from `quiet_since` on, that is shorter than its lull.
    fn others_ask(&self, now: Instant, quiet_since: Option<Instant>) -> bool
        ensures { IsTrue result ↔ IfSome quiet_since (λ since.
            instant_nanos now - instant_nanos since < as_nanos self.now.lull) }
    {
        match quiet_since {
            Some(since) => now.duration_since(since).as_nanos() < self.lull.as_nanos(),
            None => true,
        }
    }

    /// Whether it goes on: its time isn't over, others had a turn since, and they ask on.
    pub(crate) fn goes_on(&self, now: Instant, turns: u64, quiet_since: Option<Instant>) -> bool
        ensures { IsTrue result ↔ ((instant_nanos now < instant_nanos self.now.until)
            × (turns ≢ self.now.turns) × IfSome quiet_since (λ since.
            instant_nanos now - instant_nanos since < as_nanos self.now.lull)) }
    {
        let left = self.until.duration_since(now);
        left > Duration::ZERO && turns != self.turns && self.others_ask(now, quiet_since)
    }
}

/// The connections that rest, of those that were looked at since the system was asked.
#[derive(Clone, Copy, Debug)]
pub struct Resting {
    pub count: usize,
    /// The shortest lull that ends the rest of one.
    pub lull: Duration,
}

impl Resting {
    /// None.
    pub(crate) fn none() -> Resting {
        Resting {
            count: 0,
            lull: Duration::MAX,
        }
    }

    /// Counts one more.
    pub(crate) fn note(&mut self, rest: Rest) {
        self.count = self.count.saturating_add(1);
        self.lull = self.lull.min(rest.lull);
    }
}

/// How long a connection rests behind a turn that took so long: two hundred times as long, 10 seconds at most. Behind one
/// of a millisecond or less it doesn't.
fn rest_behind(took: Duration) -> Option<Duration>
    ensures some { IsSome result ↔ (1_000_000 < as_nanos took) }
    ensures time { IfSome result (λ rest.
        as_nanos rest ≡ min (as_nanos took * 200) 10_000_000_000) }
{
    if took <= Duration::from_millis(SHORT_TURN) {
        return None;
    }
    let times = took.saturating_mul(TIMES_OF_TURN);
    Some(times.min(Duration::from_millis(LONGEST_REST)))
}

/// How long nobody else is ready where that ends the rest behind a turn that took so long: a tenth as long, a millisecond
/// at least.
fn lull_behind(took: Duration) -> Duration
    ensures { as_nanos result ≡ max (as_nanos took / 10) 1_000_000 }
{
    let part = took / TIMES_OF_LULL;
    part.max(Duration::from_millis(SHORT_TURN))
}

/// How long a connection rests that gave way, where the end of its round took so long: twenty times as long, 100
/// milliseconds at most.
fn rest_behind_end(took: Duration) -> Duration
    ensures { as_nanos result ≡ min (as_nanos took * 20) 100_000_000 }
{
    let times = took.saturating_mul(TIMES_OF_END);
    times.min(Duration::from_millis(LONGEST_REST_OF_END))
}
