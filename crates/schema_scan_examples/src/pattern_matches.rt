//! Where patterns match, each on a machine that the searches before it have used.

use crate::expectations::expect_holds;
use patterns::{Fault, Pattern};
use std::alloc::Global;
use std::process::Abort;

// Why, a pattern, and whether it matches in each of the texts.
const PATTERNS: &[(&str, &str, &[(&str, bool)])] = &[
    (
        "a pattern isn't anchored: it matches anywhere (Validation 6.3.3)",
        "a+",
        &[("xaay", true), ("xy", false), ("", false), ("10", false)],
    ),
    (
        "`^` and `$` bind the digits to both ends of the text",
        r"^\d+$",
        &[("xaay", false), ("10", true), ("", false)],
    ),
    (
        "nothing stands before the four digits, nor behind the last two",
        r"^\d{4}-\d{2}-\d{2}$",
        &[
            ("2026-11-22", true),
            ("on 2026-11-22", false),
            ("2026-11-221", false),
        ],
    ),
    (
        "an empty pattern matches at the start of every text",
        "",
        &[("", true), ("x", true)],
    ),
    (
        "nothing stands between the start and the end",
        "^$",
        &[("", true), ("x", false)],
    ),
    (
        "`.` is a character, however many bytes it has in UTF-8",
        "^.$",
        &[("é", true), ("🐲", true)],
    ),
    (
        "a character beyond 16 bits is one, not two",
        "^..$",
        &[("🐲", false)],
    ),
    (
        "a class goes by code points: `ό` comes behind `ω`",
        "^[α-ω]+$",
        &[("λογος", true), ("λόγος", false)],
    ),
    (
        r"`\p{L}` has the letters of all scripts, no space, no digit",
        r"^\p{L}+$",
        &[("Straße", true), ("Straße 1", false)],
    ),
    (
        r"`\w` has letters and digits of all scripts, and `_`",
        r"^[\w.-]{1,255}$",
        &[("Łódź_1.txt", true)],
    ),
    (
        "a match begins and ends within the text",
        "b+",
        &[("abbc", true)],
    ),
    (
        "each text has an end, also an empty one",
        "$",
        &[
            ("", true),
            ("a", true),
            ("é", true),
            ("aé b", true),
            ("a\nb", true),
        ],
    ),
    (
        "`^` and `$` are those of the text, not of a line",
        "^$",
        &[
            ("", true),
            ("a", false),
            ("é", false),
            ("aé b", false),
            ("a\nb", false),
        ],
    ),
    (
        "with `(?m)` each line has a start, also the second",
        "(?m)^b",
        &[
            ("", false),
            ("a", false),
            ("é", false),
            ("aé b", false),
            ("a\nb", true),
        ],
    ),
    (
        "no word ends between `a` and `é`, nor in an empty text",
        r"\B",
        &[
            ("", true),
            ("a", false),
            ("é", false),
            ("aé b", true),
            ("a\nb", false),
        ],
    ),
    (
        "a word begins with `b`, behind a space or a line feed",
        r"\bb",
        &[
            ("", false),
            ("a", false),
            ("é", false),
            ("aé b", true),
            ("a\nb", true),
        ],
    ),
    (
        "nothing is an alternative to `é`, so any end will do",
        "(é|)$",
        &[
            ("", true),
            ("a", true),
            ("é", true),
            ("aé b", true),
            ("a\nb", true),
        ],
    ),
    (
        "`é` is the last character of one text alone",
        "é$",
        &[
            ("", false),
            ("a", false),
            ("é", true),
            ("aé b", false),
            ("a\nb", false),
        ],
    ),
    (
        "`.` is any character but the end of a line",
        "^.$",
        &[
            ("", false),
            ("a", true),
            ("é", true),
            ("aé b", false),
            ("a\nb", false),
        ],
    ),
    (
        "a class takes all but `a`, also the end of a line",
        "[^a]",
        &[
            ("", false),
            ("a", false),
            ("é", true),
            ("aé b", true),
            ("a\nb", true),
        ],
    ),
];

fn all_as_told(alloc: Global, pattern: &Pattern, texts: &[(&str, bool)]) -> Result<bool, Fault> {
    for row in texts {
        if pattern.matches(alloc, row.0)? != row.1 {
            return Ok(false);
        }
    }
    Ok(true)
}

fn matches_as_told(alloc: Global, source: &str, texts: &[(&str, bool)]) -> Result<bool, Fault> {
    let pattern = Pattern::build(alloc, source)?;
    Ok(
        pattern.text() == source
            && all_as_told(alloc, &pattern, texts)?
            && all_as_told(alloc, &pattern, texts)?
            && all_as_told(alloc, &pattern, texts)?,
    )
}

fn expect_matches(rt: &impl Abort, alloc: Global, row: &(&str, &str, &[(&str, bool)])) {
    let (why, source, texts) = *row;
    expect_holds(rt, matches_as_told(alloc, source, texts), why);
}

#[test]
fn patterns_match_somewhere(rt: HostRuntime) {
    for row in PATTERNS {
        expect_matches(&rt, rt.alloc(), row);
    }
}
