//! The call of each form.

use command_line::read;
use std::alloc::{AllocError, Global};
use std::process::Abort;

const LINES_OVER_TWO_FOLDERS: &str =
    r#"CheckMany { checks: Checks { documents: Documents { library: None, paths: ["a", "b"] }, uri: None, schema: "s", instances: ["-"], lines: true, format: Json, quiet: true } }"#;

const BUNDLE_TO_A_FILE: &str =
    r#"Bundle { bundling: Bundling { documents: Documents { library: Some("l"), paths: [] }, uri: None, schema: "s", out: Some("o") } }"#;

const SCAN_OF_TWO: &str =
    r#"Scan { scanning: Scanning { documents: Documents { library: None, paths: [] }, schemas: ["s", "t"], quiet: false } }"#;

const RUN: &str =
    r#"Run { setup: Setup { tenants: "t", library: None, store: None, cache: 256 } }"#;

const RUN_WITH_ALL: &str =
    r#"Run { setup: Setup { tenants: "t", library: Some("l"), store: None, cache: 4096 } }"#;

const SERVE_IN_TURN: &str =
    r#"Serve { setup: Setup { tenants: "t", library: Some("l"), store: None, cache: 1 }, listen: "127.0.0.1:8080", accept: 65536 }"#;

const SERVE_MANY: &str =
    r#"ServeMany { setup: Setup { tenants: "t", library: None, store: None, cache: 256 }, listen: "[::1]:0", limits: Limits { connections: 1000, idle: 30, whole: None, memory: 268435456 }, logging: Logging { file: None, requests: false } }"#;

const SERVE_MANY_WITH_ALL: &str =
    r#"ServeMany { setup: Setup { tenants: "t", library: None, store: None, cache: 256 }, listen: "[::1]:0", limits: Limits { connections: 65536, idle: 86400, whole: Some(1), memory: 4294967295 }, logging: Logging { file: Some("l"), requests: true } }"#;

// Why words spell a call, the words, and the call as its fields stand in it.
const CALLS: &[(&str, &[&str], &str)] = &[
    (
        "no words ask for the check of standard input",
        &["schemareg"],
        "Input",
    ),
    (
        "without `--uri` one schema stands under `urn:schemareg:root`",
        &["schemareg", "check", "a", "b"],
        r#"Check { uri: "urn:schemareg:root", schema: "a", instance: "b" }"#,
    ),
    (
        "one schema stands under the URI of `--uri`",
        &["schemareg", "check", "--uri", "u", "a", "b"],
        r#"Check { uri: "u", schema: "a", instance: "b" }"#,
    ),
    (
        "an option besides `--uri` asks for a check of many (CLI.md)",
        &[
            "schemareg",
            "check",
            "--with",
            "a",
            "--with",
            "b",
            "--lines",
            "--format",
            "json",
            "--quiet",
            "s",
            "-",
        ],
        LINES_OVER_TWO_FOLDERS,
    ),
    (
        "a bundle is of one schema, and goes to the file of `--out`",
        &["schemareg", "bundle", "--library", "l", "--out", "o", "s"],
        BUNDLE_TO_A_FILE,
    ),
    (
        "a scan takes as many schemas as one likes",
        &["schemareg", "scan", "s", "t"],
        SCAN_OF_TWO,
    ),
    (
        "without `--cache` 256 compiled documents are kept (LIMITS.md)",
        &["schemareg", "run", "--tenants", "t"],
        RUN,
    ),
    (
        "4,096 compiled documents are the most that may be kept (LIMITS.md)",
        &[
            "schemareg",
            "run",
            "--tenants",
            "t",
            "--library",
            "l",
            "--cache",
            "4096",
        ],
        RUN_WITH_ALL,
    ),
    (
        "with `--accept` connections are served one after the other (HTTP.md)",
        &[
            "schemareg",
            "serve",
            "--tenants",
            "t",
            "--library",
            "l",
            "--listen",
            "127.0.0.1:8080",
            "--accept",
            "65536",
            "--cache",
            "1",
        ],
        SERVE_IN_TURN,
    ),
    (
        "without `--accept` they are served side by side, with usual limits (LIMITS.md)",
        &[
            "schemareg",
            "serve",
            "--tenants",
            "t",
            "--listen",
            "[::1]:0",
        ],
        SERVE_MANY,
    ),
    (
        "limits may be set to an end of their range (LIMITS.md)",
        &[
            "schemareg",
            "serve",
            "--tenants",
            "t",
            "--listen",
            "[::1]:0",
            "--connections",
            "65536",
            "--idle",
            "86400",
            "--whole",
            "1",
            "--memory",
            "4294967295",
            "--log",
            "l",
            "--log-requests",
        ],
        SERVE_MANY_WITH_ALL,
    ),
];

// The call as its fields stand in it, or the text of what is no call.
fn told(alloc: Global, words: &[&str]) -> Result<String, AllocError> {
    match read(alloc, words) {
        Ok(call) => format!(in alloc; "{call:?}"),
        Err(error) => error.to_string(alloc),
    }
}

fn expect_call(rt: &impl Abort, alloc: Global, row: &(&str, &[&str], &str)) {
    let (why, words, wanted) = *row;
    match told(alloc, words) {
        Ok(text) => assert_eq!(rt; text.as_str(), wanted, "{why}"),
        Err(_) => panic!(rt; "{why}: no room"),
    }
}

#[test]
fn words_spell_calls(rt: HostRuntime) {
    for row in CALLS {
        expect_call(&rt, rt.alloc(), row);
    }
}
