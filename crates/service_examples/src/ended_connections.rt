//! How connections end that are served side by side, and what is sent and read then.

use crate::served_hubs::{CLOSING, LAST_BAD_ROUTE, OUTPUT, POST, PUT, PUT_FRONT, STORED};
use crate::served_networks::{ENOUGH, LAST, Script, expect_script};
use network::Happening::*;

const ENDS: &[Script<'static, 'static>] = &[
    Script {
        why: "a stream may end behind a whole request (HTTP.md)",
        most_memory: ENOUGH,
        happenings: &[Opens(0), Arrives(0, PUT), Ends(0)],
        outcomes: &[(0, STORED, 0)],
        told: "0+ 0-",
    },
    Script {
        why: "an end within a request is answered by the closing fault (HTTP.md)",
        most_memory: ENOUGH,
        happenings: &[Opens(0), Arrives(0, PUT_FRONT), Ends(0)],
        outcomes: &[(0, CLOSING, 0)],
        told: "0+ 0-",
    },
    Script {
        why: "who asks for nothing is answered nothing",
        most_memory: ENOUGH,
        happenings: &[Opens(0), Ends(0)],
        outcomes: &[(0, "", 0)],
        told: "0+ 0-",
    },
    Script {
        why: "behind the closing fault nothing is read (HTTP.md)",
        most_memory: ENOUGH,
        happenings: &[
            Opens(0),
            Arrives(0, "TRACE / HTTP/1.1\r\n\r\n"),
            Rests,
            Arrives(0, POST),
        ],
        outcomes: &[(0, CLOSING, 89)],
        told: "0+ 0-",
    },
    Script {
        why: "a closing fault may be taken in parts",
        most_memory: ENOUGH,
        happenings: &[
            Opens(0),
            Takes(0, 1),
            Arrives(0, PUT_FRONT),
            Ends(0),
            Rests,
            Takes(0, 2),
            Rests,
            Takes(0, ENOUGH),
        ],
        outcomes: &[(0, CLOSING, 0)],
        told: "0+ 0-",
    },
    Script {
        why: "behind a last request nothing is read (HTTP.md)",
        most_memory: ENOUGH,
        happenings: &[Opens(0), Arrives(0, LAST), Arrives(0, POST)],
        outcomes: &[(0, LAST_BAD_ROUTE, 89)],
        told: "0+ 0-",
    },
    Script {
        why: "a last reply is written in the round in which the server ends",
        most_memory: ENOUGH,
        happenings: &[Opens(0), Arrives(0, LAST), Ceases],
        outcomes: &[(0, LAST_BAD_ROUTE, 0)],
        told: "0+ 0-",
    },
    Script {
        why: "a stream's end is told in the round in which the server ends",
        most_memory: ENOUGH,
        happenings: &[Opens(0), Arrives(0, PUT), Rests, Ends(0), Ceases],
        outcomes: &[(0, STORED, 0)],
        told: "0+ 0-",
    },
    Script {
        why: "a client that sends nothing in its time is let go (LIMITS.md)",
        most_memory: ENOUGH,
        happenings: &[Opens(0), Rests, Tires(0)],
        outcomes: &[(0, "", 0)],
        told: "0+ 0-ReadFailed",
    },
    Script {
        why: "a client that stops within a request is let go without a reply (LIMITS.md)",
        most_memory: ENOUGH,
        happenings: &[Opens(0), Arrives(0, PUT_FRONT), Rests, Tires(0)],
        outcomes: &[(0, "", 0)],
        told: "0+ 0-ReadFailed",
    },
    Script {
        why: "a read that fails ends its own connection alone",
        most_memory: ENOUGH,
        happenings: &[
            Opens(0),
            Arrives(0, PUT_FRONT),
            Rests,
            Breaks(0),
            Rests,
            Opens(1),
            Arrives(1, POST),
        ],
        outcomes: &[(0, "", 0), (1, OUTPUT, 0)],
        told: "0+ 0-ReadFailed 1+",
    },
    Script {
        why: "a write that fails ends its own connection alone",
        most_memory: ENOUGH,
        happenings: &[
            Opens(0),
            Takes(0, 3),
            Arrives(0, PUT),
            Rests,
            Breaks(0),
            Rests,
            Opens(1),
            Arrives(1, POST),
        ],
        outcomes: &[(0, "HTT", 0), (1, OUTPUT, 0)],
        told: "0+ 0-WriteFailed 1+",
    },
    Script {
        why: "what comes on a connection that was late isn't read",
        most_memory: ENOUGH,
        happenings: &[Opens(0), Rests, Tires(0), Rests, Arrives(0, POST)],
        outcomes: &[(0, "", 89)],
        told: "0+ 0-ReadFailed",
    },
    Script {
        why: "what comes behind a read that failed isn't read",
        most_memory: ENOUGH,
        happenings: &[Opens(0), Breaks(0), Rests, Arrives(0, POST)],
        outcomes: &[(0, "", 89)],
        told: "0+ 0-ReadFailed",
    },
    Script {
        why: "what comes behind a write that failed isn't read",
        most_memory: ENOUGH,
        happenings: &[
            Opens(0),
            Takes(0, 3),
            Arrives(0, PUT),
            Rests,
            Breaks(0),
            Rests,
            Arrives(0, POST),
        ],
        outcomes: &[(0, "HTT", 89)],
        told: "0+ 0-WriteFailed",
    },
];

#[test]
fn each_end_is_that_of_one_connection(rt: HostRuntime) {
    for row in ENDS {
        expect_script(&rt, rt.alloc(), row);
    }
}

const OVER: &[Script<'static, 'static>] = &[
    Script {
        why: "bytes that nobody takes at the end are dropped",
        most_memory: ENOUGH,
        happenings: &[Opens(0), Takes(0, 5), Arrives(0, PUT)],
        outcomes: &[(0, "HTTP/", 0)],
        told: "0+",
    },
    Script {
        why: "replies of the last round are written, and nothing more is read",
        most_memory: ENOUGH,
        happenings: &[
            Opens(0),
            Opens(1),
            Takes(1, 0),
            Arrives(0, PUT),
            Arrives(1, PUT),
            Ceases,
            Arrives(0, POST),
        ],
        outcomes: &[(0, STORED, 89), (1, "", 0)],
        told: "0+ 1+",
    },
    Script {
        why: "where nobody came nothing is told",
        most_memory: ENOUGH,
        happenings: &[],
        outcomes: &[],
        told: "",
    },
];

#[test]
fn the_end_with_bytes_to_be_sent(rt: HostRuntime) {
    for row in OVER {
        expect_script(&rt, rt.alloc(), row);
    }
}
