//! Numbers that trade one cost for another. No answer depends on them.

/// How long a turn takes at most that no rest follows, and the shortest lull that ends a rest behind one, in milliseconds.
pub(crate) const SHORT_TURN: u64 = 1;

/// How many times as long as its turn a connection rests: its own wait, against that of the others.
pub(crate) const TIMES_OF_TURN: u32 = 200;

/// How long a connection rests at most, in milliseconds.
pub(crate) const LONGEST_REST: u64 = 10_000;

/// How many times as long as the lull that ends its rest a turn takes.
pub(crate) const TIMES_OF_LULL: u32 = 10;

/// How many times as long as the end of its round a connection rests that gave way.
pub(crate) const TIMES_OF_END: u32 = 20;

/// How long it rests at most, in milliseconds.
pub(crate) const LONGEST_REST_OF_END: u64 = 100;

/// How many reads of 4,096 bytes a client that is still sending has at most when its connection is over: the time that it takes,
/// against a reply that the system drops.
pub(crate) const MOST_READS: u32 = 256;

/// How often all connections are looked at, in milliseconds: that work, against the lateness of an end.
pub(crate) const TICK: u64 = 500;

/// How many events the system tells at once: memory, against calls.
pub(crate) const MOST_EVENTS: usize = 1024;
