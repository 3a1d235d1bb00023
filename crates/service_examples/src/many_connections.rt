//! Many connections side by side, whatever becomes ready and in whatever order.

use crate::served_hubs::{
    EXAMPLE, EXAMPLE_REPLIES, LAST_BAD_ROUTE, NOT_FOUND, OUTPUT, POST, PUT, PUT_FRONT, STORED,
};
use crate::served_networks::{ENOUGH, LAST, Outcome, Script, expect_script};
use crate::texts::{filled, push_copies};
use network::Happening::{self, *};
use std::alloc::{AllocError, Global};
use std::process::Abort;

fn push_byte<'a>(
    script: &mut Vec<Happening<'a>>,
    id: u64,
    stream: &'a str,
    index: usize,
) -> Result<(), AllocError> {
    match stream.get(index..index.saturating_add(1)) {
        Some(byte) => Ok(script.push(Arrives(id, byte))?),
        None => Ok(()),
    }
}

// Pieces of the two streams in turn, cut after each byte.
fn cut_in_bytes(alloc: Global, are_together: bool) -> Result<Vec<Happening<'static>>, AllocError> {
    let mut script = Vec::new(alloc);
    script.push(Opens(0))?;
    script.push(Opens(1))?;
    for index in 0..EXAMPLE.len().max(POST.len()) {
        push_byte(&mut script, 0, EXAMPLE, index)?;
        if !are_together {
            script.push(Rests)?;
        }
        push_byte(&mut script, 1, POST, index)?;
        script.push(Rests)?;
    }
    Ok(script)
}

// The example, where each write takes so many bytes.
fn taken_in_parts(alloc: Global, room: usize) -> Result<Vec<Happening<'static>>, AllocError> {
    let mut script = Vec::new(alloc);
    script.extend_from_slice(&[Opens(0), Takes(0, room), Arrives(0, EXAMPLE)])?;
    for _ in 0..EXAMPLE_REPLIES.len() {
        script.push(Rests)?;
        script.push(Takes(0, room))?;
    }
    Ok(script)
}

fn expect_of_happenings<'a>(
    rt: &impl Abort,
    alloc: Global,
    why: &'a str,
    happenings: Result<Vec<Happening<'static>>, AllocError>,
    outcomes: &'a [Outcome<'a>],
    told: &'a str,
) {
    match happenings {
        Ok(happenings) => {
            let script = Script {
                why,
                most_memory: ENOUGH,
                happenings: &happenings,
                outcomes,
                told,
            };
            expect_script(rt, alloc, &script);
        }
        Err(_) => panic!(rt; "{why}: no room"),
    }
}

#[test]
fn two_streams_in_turn_cut_after_each_byte(rt: HostRuntime) {
    let alloc = rt.alloc();
    let outcomes: &[Outcome] = &[(0, EXAMPLE_REPLIES, 0), (1, OUTPUT, 0)];
    let why = "each byte belongs to its own connection's stream";
    expect_of_happenings(
        &rt,
        alloc,
        why,
        cut_in_bytes(alloc, true),
        outcomes,
        "0+ 1+",
    );
    expect_of_happenings(
        &rt,
        alloc,
        why,
        cut_in_bytes(alloc, false),
        outcomes,
        "0+ 1+",
    );
}

#[test]
fn writes_that_take_a_part(rt: HostRuntime) {
    let alloc = rt.alloc();
    let outcomes: &[Outcome] = &[(0, EXAMPLE_REPLIES, 0)];
    let why = "what a write doesn't take is written next";
    expect_of_happenings(&rt, alloc, why, taken_in_parts(alloc, 1), outcomes, "0+");
    expect_of_happenings(&rt, alloc, why, taken_in_parts(alloc, 7), outcomes, "0+");
    expect_of_happenings(&rt, alloc, why, taken_in_parts(alloc, 100), outcomes, "0+");
}

const WAITING_WRITES: &[Script<'static, 'static>] = &[
    Script {
        why: "a write that would wait goes on once it can, and others meanwhile",
        most_memory: ENOUGH,
        happenings: &[
            Opens(0),
            Opens(1),
            Takes(0, 0),
            Arrives(0, PUT),
            Rests,
            Arrives(1, POST),
            Rests,
            Takes(0, ENOUGH),
        ],
        outcomes: &[(0, STORED, 0), (1, OUTPUT, 0)],
        told: "0+ 1+",
    },
    Script {
        why: "a client that takes no replies isn't read any further, and others are (HTTP.md)",
        most_memory: ENOUGH,
        happenings: &[
            Opens(0),
            Takes(0, 0),
            Arrives(0, PUT),
            Rests,
            Arrives(0, POST),
            Arrives(0, POST),
            Rests,
            Opens(1),
            Arrives(1, POST),
            Rests,
            Arrives(1, PUT),
        ],
        outcomes: &[(0, "", 178), (1, "…", 0)],
        told: "0+ 1+",
    },
    Script {
        why: "a client is read on once it takes its replies",
        most_memory: ENOUGH,
        happenings: &[
            Opens(0),
            Takes(0, 10),
            Arrives(0, PUT),
            Rests,
            Arrives(0, POST),
            Rests,
            Stirs(0),
            Rests,
            Takes(0, 1),
            Rests,
            Takes(0, ENOUGH),
        ],
        outcomes: &[(0, EXAMPLE_REPLIES, 0)],
        told: "0+",
    },
    Script {
        why: "a client that takes too long over its replies is let go (LIMITS.md)",
        most_memory: ENOUGH,
        happenings: &[
            Opens(0),
            Takes(0, 10),
            Arrives(0, PUT),
            Rests,
            Tires(0),
            Rests,
            Takes(0, ENOUGH),
        ],
        outcomes: &[(0, "HTTP/1.1 2", 0)],
        told: "0+ 0-WriteFailed",
    },
];

#[test]
fn a_client_that_takes_no_replies_waits_alone(rt: HostRuntime) {
    for row in WAITING_WRITES {
        expect_script(&rt, rt.alloc(), row);
    }
}

const SPURIOUS: &[Script<'static, 'static>] = &[
    Script {
        why: "a connection that is ready without a byte waits for one",
        most_memory: ENOUGH,
        happenings: &[
            Opens(0),
            Stirs(0),
            Stirs(0),
            Rests,
            Arrives(0, PUT_FRONT),
            Stirs(0),
            Rests,
            Stirs(0),
            Rests,
            Arrives(0, "}"),
            Stirs(0),
        ],
        outcomes: &[(0, STORED, 0)],
        told: "0+",
    },
    Script {
        why: "nothing happens to who has ended, or who never came",
        most_memory: ENOUGH,
        happenings: &[
            Opens(0),
            Arrives(0, LAST),
            Rests,
            Stirs(0),
            Stirs(9),
            Tires(0),
            Tires(9),
            Rests,
            Opens(1),
            Arrives(1, POST),
        ],
        outcomes: &[(0, LAST_BAD_ROUTE, 0), (1, OUTPUT, 0)],
        told: "0+ 0- 1+",
    },
    Script {
        why: "a number isn't given twice, and each is above all before",
        most_memory: ENOUGH,
        happenings: &[
            Opens(3),
            Arrives(3, PUT_FRONT),
            Rests,
            Opens(3),
            Rests,
            Arrives(3, POST),
            Rests,
            Opens(2),
            Arrives(2, POST),
        ],
        outcomes: &[(3, "", 89), (2, "", 89)],
        told: "3+ 3-IdInUse",
    },
];

#[test]
fn readiness_that_tells_nothing(rt: HostRuntime) {
    for row in SPURIOUS {
        expect_script(&rt, rt.alloc(), row);
    }
}

const MEMORY: &[Script<'static, 'static>] = &[
    Script {
        why: "while one holds more than all may, no other is read (LIMITS.md)",
        most_memory: 50,
        happenings: &[
            Opens(0),
            Opens(1),
            Arrives(0, PUT_FRONT),
            Rests,
            Arrives(1, POST),
            Rests,
            Rests,
        ],
        outcomes: &[(0, "", 0), (1, "", 89)],
        told: "0+ 1+",
    },
    Script {
        why: "the one that holds too much is read on, and then the others (LIMITS.md)",
        most_memory: 50,
        happenings: &[
            Opens(0),
            Opens(1),
            Arrives(0, PUT_FRONT),
            Rests,
            Arrives(1, POST),
            Rests,
            Arrives(0, "}"),
            Rests,
            Rests,
        ],
        outcomes: &[(0, STORED, 0), (1, OUTPUT, 0)],
        told: "0+ 1+",
    },
    Script {
        why: "replies that aren't taken are held until their client is let go",
        most_memory: 50,
        happenings: &[
            Opens(0),
            Opens(1),
            Takes(0, 0),
            Arrives(0, PUT),
            Rests,
            Arrives(1, POST),
            Rests,
            Tires(0),
            Rests,
            Rests,
        ],
        outcomes: &[(0, "", 0), (1, OUTPUT, 0)],
        told: "0+ 1+ 0-WriteFailed",
    },
    Script {
        why: "where nothing may be held, one alone is read on (LIMITS.md)",
        most_memory: 0,
        happenings: &[
            Opens(0),
            Arrives(0, PUT_FRONT),
            Rests,
            Arrives(0, "}"),
            Arrives(0, POST),
        ],
        outcomes: &[(0, EXAMPLE_REPLIES, 0)],
        told: "0+",
    },
];

#[test]
fn memory_that_all_may_take(rt: HostRuntime) {
    for row in MEMORY {
        expect_script(&rt, rt.alloc(), row);
    }
}

fn expect_long<'x>(rt: &impl Abort, alloc: Global, body: &'x str, many: &'x str, replies: &'x str) {
    let script = Script {
        why: "a body may come in any number of pieces",
        most_memory: ENOUGH,
        happenings: &[
            Opens(0),
            Opens(1),
            Arrives(0, body),
            Arrives(1, many),
            Rests,
            Ends(0),
            Ends(1),
        ],
        outcomes: &[(0, STORED, 0), (1, replies, 0)],
        told: "0+ 1+ 0- 1-",
    };
    expect_script(rt, alloc, &script);
}

fn forty(alloc: Global, piece: &str) -> Result<String, AllocError> {
    let mut text = String::new(alloc);
    push_copies(&mut text, 40, piece)?;
    Ok(text)
}

const LONG_BODY: &str =
    "PUT /schemas?uri=a HTTP/1.1\r\nx-tenant-key: k1\r\ncontent-length: 100000\r\n\r\n«100000* »";

const UNKNOWN: &str = "GET /bundle?uri=a HTTP/1.1\r\nx-tenant-key: k1\r\n\r\n";

// Bodies that come in many pieces, and a bundle of replies to one piece.
#[test]
fn long_streams_are_read_in_pieces(rt: HostRuntime) {
    let alloc = rt.alloc();
    match (
        filled(alloc, LONG_BODY),
        forty(alloc, UNKNOWN),
        forty(alloc, NOT_FOUND),
    ) {
        (Ok(body), Ok(many), Ok(replies)) => {
            expect_long(&rt, alloc, body.as_str(), many.as_str(), replies.as_str());
        }
        _ => panic!(rt; "no room"),
    }
}
