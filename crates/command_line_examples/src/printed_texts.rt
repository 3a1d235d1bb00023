//! The text, the stream and the status of what is no call.

use clap::Error;
use command_line::read;
use std::alloc::Global;
use std::process::Abort;

/// Words that spell no call, and what the text that is printed begins with.
struct Printed {
    why: &'static str,
    words: &'static [&'static str],
    text: &'static str,
    /// The text of a mistake goes to standard error, and the status is 2.
    is_mistake: bool,
}

const NO_INSTANCE: &str = r#"error: the following required arguments were not provided:
  <INSTANCE>...

Usage: schemareg check <SCHEMA> <INSTANCE>...

For more information, try '--help'.
"#;

const NO_SUCH_COMMAND: &str = r#"error: unrecognized subcommand 'walk'

Usage: schemareg [COMMAND]

For more information, try '--help'.
"#;

const NO_SUCH_FORMAT: &str = r#"error: invalid value 'xml' for '--format <FORMAT>'
  [possible values: text, json, github]
"#;

const HELP: &str = r#"A registry, validator and bundler for JSON Schema 2020-12

Usage: schemareg [COMMAND]

Commands:
  check  "#;

const EMPTY_CACHE: &str = r#"error: invalid value '0' for '--cache <N>': 0 is not in 1..=4096

For more information, try '--help'.
"#;

const NO_TENANTS: &str = r#"error: the following required arguments were not provided:
  --tenants <FILE>

"#;

const NO_TENANTS_AND_NO_ADDRESS: &str =
    r#"error: the following required arguments were not provided:
  --tenants <FILE>
  --listen <ADDR>

"#;

const HELP_OF_CHECK: &str = r#"Checks instances by a schema

Usage: schemareg check [OPTIONS] <SCHEMA> <INSTANCE>...
"#;

const HELP_OF_RUN: &str = r#"Serves one HTTP connection on standard input and output

Usage: schemareg run [OPTIONS] --tenants <FILE>
"#;

const HELP_OF_SERVE: &str =
    r#"Serves HTTP connections at an address, side by side or one after the other

Usage: schemareg serve [OPTIONS] --tenants <FILE> --listen <ADDR>
"#;

const COUNTED_AND_SIDE_BY_SIDE: &str =
    r#"error: the argument '--accept <N>' cannot be used with '--connections <N>'

Usage: schemareg serve [OPTIONS] --tenants <FILE> --listen <ADDR>

"#;

const TEXTS: &[Printed] = &[
    Printed {
        why: "a check needs an instance",
        words: &["schemareg", "check", "a"],
        text: NO_INSTANCE,
        is_mistake: true,
    },
    Printed {
        why: "no form has the option",
        words: &["schemareg", "--walk"],
        text: "error: unexpected argument '--walk' found\n\n",
        is_mistake: true,
    },
    Printed {
        why: "no form is named by the word",
        words: &["schemareg", "walk"],
        text: NO_SUCH_COMMAND,
        is_mistake: true,
    },
    Printed {
        why: "a report is text, JSON or annotations of GitHub (CLI.md)",
        words: &["schemareg", "check", "--format", "xml", "s", "i"],
        text: NO_SUCH_FORMAT,
        is_mistake: true,
    },
    Printed {
        why: "who asks for help makes no mistake",
        words: &["schemareg", "--help"],
        text: HELP,
        is_mistake: false,
    },
    Printed {
        why: "who asks for the version makes no mistake",
        words: &["schemareg", "--version"],
        text: "schemareg 0.1.0\n",
        is_mistake: false,
    },
    Printed {
        why: "a cache keeps one document or more (LIMITS.md)",
        words: &["schemareg", "run", "--tenants", "t", "--cache", "0"],
        text: EMPTY_CACHE,
        is_mistake: true,
    },
    Printed {
        why: "a cache keeps 4,096 documents at most (LIMITS.md)",
        words: &["schemareg", "run", "--tenants", "t", "--cache", "4097"],
        text: "error: invalid value '4097' for '--cache <N>': 4097 is not in 1..=4096\n\n",
        is_mistake: true,
    },
    Printed {
        why: "`run` needs a tenants' file (HTTP.md)",
        words: &["schemareg", "run"],
        text: NO_TENANTS,
        is_mistake: true,
    },
    Printed {
        why: "65,536 connections are accepted at most (LIMITS.md)",
        words: &[
            "schemareg",
            "serve",
            "--tenants",
            "t",
            "--listen",
            "127.0.0.1:0",
            "--accept",
            "65537",
        ],
        text: "error: invalid value '65537' for '--accept <N>': 65537 is not in 1..=65536\n\n",
        is_mistake: true,
    },
    Printed {
        why: "`serve` needs a tenants' file and an address (HTTP.md)",
        words: &["schemareg", "serve"],
        text: NO_TENANTS_AND_NO_ADDRESS,
        is_mistake: true,
    },
    Printed {
        why: "help behind `check` is that of `check` (CLI.md)",
        words: &["schemareg", "check", "--help"],
        text: HELP_OF_CHECK,
        is_mistake: false,
    },
    Printed {
        why: "help behind `run` is that of `run` (CLI.md)",
        words: &["schemareg", "run", "--help"],
        text: HELP_OF_RUN,
        is_mistake: false,
    },
    Printed {
        why: "help behind `serve` is that of `serve` (CLI.md)",
        words: &["schemareg", "serve", "--help"],
        text: HELP_OF_SERVE,
        is_mistake: false,
    },
    Printed {
        why: "how many are open counts side by side alone (LIMITS.md)",
        words: &[
            "schemareg",
            "serve",
            "--tenants",
            "t",
            "--listen",
            "127.0.0.1:0",
            "--accept",
            "1",
            "--connections",
            "1",
        ],
        text: COUNTED_AND_SIDE_BY_SIDE,
        is_mistake: true,
    },
    Printed {
        why: "how long one may idle counts side by side alone (LIMITS.md)",
        words: &[
            "schemareg",
            "serve",
            "--tenants",
            "t",
            "--listen",
            "127.0.0.1:0",
            "--accept",
            "1",
            "--idle",
            "1",
        ],
        text: "error: the argument '--accept <N>' cannot be used with '--idle <SECONDS>'\n\n",
        is_mistake: true,
    },
    Printed {
        why: "how long one may last counts side by side alone (LIMITS.md)",
        words: &[
            "schemareg",
            "serve",
            "--tenants",
            "t",
            "--listen",
            "127.0.0.1:0",
            "--accept",
            "1",
            "--whole",
            "1",
        ],
        text: "error: the argument '--accept <N>' cannot be used with '--whole <SECONDS>'\n\n",
        is_mistake: true,
    },
    Printed {
        why: "what all may hold counts side by side alone (LIMITS.md)",
        words: &[
            "schemareg",
            "serve",
            "--tenants",
            "t",
            "--listen",
            "127.0.0.1:0",
            "--accept",
            "1",
            "--memory",
            "1048576",
        ],
        text: "error: the argument '--accept <N>' cannot be used with '--memory <BYTES>'\n\n",
        is_mistake: true,
    },
    Printed {
        why: "a log is of connections side by side alone (HTTP.md)",
        words: &[
            "schemareg",
            "serve",
            "--tenants",
            "t",
            "--listen",
            "127.0.0.1:0",
            "--accept",
            "1",
            "--log",
            "l",
        ],
        text: "error: the argument '--accept <N>' cannot be used with '--log <FILE>'\n\n",
        is_mistake: true,
    },
    Printed {
        why: "requests are logged side by side alone, wherever `--accept` stands",
        words: &[
            "schemareg",
            "serve",
            "--tenants",
            "t",
            "--listen",
            "127.0.0.1:0",
            "--log-requests",
            "--accept",
            "1",
        ],
        text: "error: the argument '--accept <N>' cannot be used with '--log-requests'\n\n",
        is_mistake: true,
    },
];

fn expect_printed(rt: &impl Abort, alloc: Global, error: &Error, row: &Printed) {
    let why = row.why;
    match error.to_string(alloc) {
        Ok(printed) => assert!(rt; printed.as_str().starts_with(row.text), "{why}: {printed}"),
        Err(_) => panic!(rt; "{why}: no room"),
    }
    let status = if row.is_mistake { 2 } else { 0 };
    assert!(rt;
        error.use_stderr() == row.is_mistake && error.exit_code() == status,
        "{why}"
    );
}

fn expect_text(rt: &impl Abort, alloc: Global, row: &Printed) {
    match read(alloc, row.words) {
        Ok(_) => panic!(rt; "{}: a call", row.why),
        Err(error) => expect_printed(rt, alloc, &error, row),
    }
}

#[test]
fn what_is_no_call_is_told(rt: HostRuntime) {
    for row in TEXTS {
        expect_text(&rt, rt.alloc(), row);
    }
}
