//! How much patterns take of a room that they share.

use patterns::{Fault, Pattern};
use std::alloc::Global;
use std::process::Abort;

// A pattern, a room, whether the pattern is built within it, and what is left of it.
struct Room {
    why: &'static str,
    source: &'static str,
    room: usize,
    is_built: bool,
    left: usize,
}

// The class of the last is empty, so that all copies come to one state.
const ROOMS: &[Room] = &[
    Room {
        why: "12 bytes for the letter, 48 for the states of any",
        source: "a",
        room: 1_000,
        is_built: true,
        left: 940,
    },
    Room {
        why: "12 bytes for each of 50 letters, 48 for the states",
        source: "a{50}",
        room: 1_000,
        is_built: true,
        left: 352,
    },
    Room {
        why: "1,248 bytes don't fit, and nothing is taken",
        source: "a{100}",
        room: 1_000,
        is_built: false,
        left: 1_000,
    },
    Room {
        why: "what the grammar doesn't read takes nothing",
        source: "(",
        room: 1_000,
        is_built: false,
        left: 1_000,
    },
    Room {
        why: "look-around isn't read, and takes nothing (PROFILE.md)",
        source: "(?=a)",
        room: 1_000,
        is_built: false,
        left: 1_000,
    },
    Room {
        why: "small once built, it counts a quarter of what writing took",
        source: r"(?:[^\s\S]x{1000}){1000}",
        room: 32 << 20,
        is_built: true,
        left: 31 << 20,
    },
];

fn expect_room(rt: &impl Abort, alloc: Global, row: &Room) {
    let why = row.why;
    let mut found = row.room;
    match Pattern::build_within(alloc, row.source, &mut found) {
        Ok(_) => assert!(rt; row.is_built, "{why}"),
        Err(fault) => assert!(rt; !row.is_built && fault == Fault::BadPattern, "{why}"),
    }
    assert_eq!(rt; found, row.left, "{why}");
}

#[test]
fn patterns_take_their_tables_from_the_room(rt: HostRuntime) {
    for row in ROOMS {
        expect_room(&rt, rt.alloc(), row);
    }
}
