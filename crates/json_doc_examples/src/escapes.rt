//! Names with escapes at each part of a unit, by the rules of RFC 6901, RFC 3986 and RFC 8259.

use crate::expectations::{expect_same, expect_told};
use crate::places::{Place, origin_at, root_of};
use basic_output::{Origin, Says, Step, Units, WrittenPointer};
use keywords::Keyword;
use output_texts::{Fault, output_text};
use std::alloc::Global;
use std::process::Abort;

/// Why a name is escaped so, the name, its token as a fragment, and its token in a string of JSON.
type Row = (&'static str, &'static str, &'static str, &'static str);

const NAMES: &[Row] = &[
    (
        "a quotation mark is escaped in a string, and encoded in a fragment",
        r#"a"b"#,
        "a%22b",
        r#"a\"b"#,
    ),
    ("an escape may be the whole token", r#"""#, "%22", r#"\""#),
    (
        "a backslash is escaped in a string, and encoded in a fragment",
        r#"a\b"#,
        "a%5Cb",
        r#"a\\b"#,
    ),
    (
        "braces stand in a string as they are, but in no fragment",
        r#"\d{2}\"#,
        "%5Cd%7B2%7D%5C",
        r#"\\d{2}\\"#,
    ),
    (
        "NUL is a control as others are",
        "\u{0}",
        "%00",
        r#"\u0000"#,
    ),
    (
        "backspace and form feed have short escapes (RFC 8259, 7)",
        "\u{8}\u{c}",
        "%08%0C",
        r#"\b\f"#,
    ),
    (
        "tab, line feed and carriage return have short escapes (RFC 8259, 7)",
        "\t\n\r",
        "%09%0A%0D",
        r#"\t\n\r"#,
    ),
    (
        "a control without a short escape has four hexadecimal digits (RFC 8259, 7)",
        "\u{b}x\u{1f}",
        "%0Bx%1F",
        r#"\u000bx\u001f"#,
    ),
    (
        "none from 1 to 7 has a short escape",
        "\u{1}\u{2}\u{3}\u{4}\u{5}\u{6}\u{7}",
        "%01%02%03%04%05%06%07",
        r#"\u0001\u0002\u0003\u0004\u0005\u0006\u0007"#,
    ),
    (
        "none from 14 to 22 has a short escape",
        "\u{e}\u{f}\u{10}\u{11}\u{12}\u{13}\u{14}\u{15}\u{16}",
        "%0E%0F%10%11%12%13%14%15%16",
        r#"\u000e\u000f\u0010\u0011\u0012\u0013\u0014\u0015\u0016"#,
    ),
    (
        "none from 23 to 30 has a short escape",
        "\u{17}\u{18}\u{19}\u{1a}\u{1b}\u{1c}\u{1d}\u{1e}",
        "%17%18%19%1A%1B%1C%1D%1E",
        r#"\u0017\u0018\u0019\u001a\u001b\u001c\u001d\u001e"#,
    ),
    (
        "DEL needs no escape in a string (RFC 8259, 7)",
        "\u{7f}",
        "%7F",
        "\u{7f}",
    ),
    (
        "a slash in a token is `~1` (RFC 6901, 3)",
        "a/b",
        "a~1b",
        "a~1b",
    ),
    ("a tilde in a token is `~0` (RFC 6901, 3)", "~", "~0", "~0"),
    (
        "each tilde and slash is escaped, whatever stands beside it",
        "~1/0",
        "~01~10",
        "~01~10",
    ),
    (
        "a percent sign is encoded in a fragment alone (RFC 3986, 2.4)",
        "100%",
        "100%25",
        "100%",
    ),
    (
        "a name that looks encoded is encoded all the same",
        "%22",
        "%2522",
        "%22",
    ),
    (
        "carets, blanks and number signs stand in no fragment (RFC 3986, 3.5)",
        "^a b#",
        "%5Ea%20b%23",
        "^a b#",
    ),
    (
        "a character of two bytes is encoded byte by byte (RFC 3986, 2.5)",
        "é",
        "%C3%A9",
        "é",
    ),
    (
        "a character of three bytes is encoded byte by byte (RFC 3986, 2.5)",
        "数",
        "%E6%95%B0",
        "数",
    ),
    (
        "a character of four bytes is encoded byte by byte (RFC 3986, 2.5)",
        "𝕏",
        "%F0%9D%95%8F",
        "𝕏",
    ),
    (
        "each character is escaped by its own rule, beside whichever it stands",
        r#"𝕏"/\~é"#,
        "%F0%9D%95%8F%22~1%5C~0%C3%A9",
        r#"𝕏\"~1\\~0é"#,
    ),
    (
        "a name of any length is escaped up to its end",
        r#"a name of more than thirty-two bytes \"#,
        "a%20name%20of%20more%20than%20thirty-two%20bytes%20%5C",
        r#"a name of more than thirty-two bytes \\"#,
    ),
    (
        "the last of four bytes is escaped as others are",
        r#"abc""#,
        "abc%22",
        r#"abc\""#,
    ),
    (
        "the first of five bytes is escaped as others are",
        r#"\bcde"#,
        "%5Cbcde",
        r#"\\bcde"#,
    ),
    (
        "the last of sixteen bytes is escaped as others are",
        r#"abcdefghijklmno""#,
        "abcdefghijklmno%22",
        r#"abcdefghijklmno\""#,
    ),
    (
        "the first of seventeen bytes is escaped as others are",
        "\tbcdefghijklmnopq",
        "%09bcdefghijklmnopq",
        r#"\tbcdefghijklmnopq"#,
    ),
    (
        "the last of seventeen bytes is escaped as others are",
        r#"abcdefghijklmnop\"#,
        "abcdefghijklmnop%5C",
        r#"abcdefghijklmnop\\"#,
    ),
    (
        "letters need no escape (RFC 3986, 2.3)",
        "plain",
        "plain",
        "plain",
    ),
];

/// Where the name stands among the steps: at the first one, in the middle, at the last one, and at two.
const PLACES: &[[bool; 3]] = &[
    [true, false, false],
    [false, true, false],
    [false, false, true],
    [true, false, true],
    [true, true, false],
    [false, true, true],
];

/// In which parts of the unit it stands there: in the origin, in the path, in the instance location.
const PARTS: &[[bool; 3]] = &[
    [true, true, true],
    [true, false, false],
    [false, true, false],
    [false, false, true],
];

/// Where it stands in a part, if it does there.
fn place_in(is_there: bool, place: &[bool; 3]) -> [bool; 3] {
    if is_there {
        *place
    } else {
        [false, false, false]
    }
}

/// The steps, of which some have this name.
fn steps_of<'a>(place: &[bool; 3], name: &'a str) -> [Step<'a>; 3] {
    let [first, middle, last] = *place;
    [
        if first {
            Step::Name(name)
        } else {
            Step::Keyword(Keyword::Properties)
        },
        if middle {
            Step::Name(name)
        } else {
            Step::Index(12)
        },
        if last {
            Step::Name(name)
        } else {
            Step::Name("x")
        },
    ]
}

/// Appends a `/` and this token, or else the other one.
fn push_token(text: &mut String, is_named: bool, token: &str, other: &str) -> Result<(), Fault> {
    text.push_str("/")?;
    if is_named {
        text.push_str(token)?;
    } else {
        text.push_str(other)?;
    }
    Ok(())
}

/// Appends the text of these steps, of which some have this token.
fn push_steps(text: &mut String, place: &[bool; 3], token: &str) -> Result<(), Fault> {
    let [first, _, _] = *place;
    push_token(text, first, token, "properties")?;
    push_onward(text, place, token)
}

/// Appends the text of the last two steps.
fn push_onward(text: &mut String, place: &[bool; 3], token: &str) -> Result<(), Fault> {
    let [_, middle, last] = *place;
    push_token(text, middle, token, "12")?;
    push_token(text, last, token, "x")
}

/// How much of the texts is written before the unit is noted.
#[derive(Clone, Copy)]
enum Written {
    Nothing,
    Pointers,
    All,
}

/// A pointer with these steps.
fn pointer_to<'a>(
    alloc: Global,
    steps: &[Step<'a>],
    onward: usize,
    written: Written,
) -> Result<WrittenPointer<'a>, Fault> {
    let mut pointer = WrittenPointer::within(alloc, None)?;
    for step in steps {
        pointer.push(*step)?;
    }
    match written {
        Written::Nothing => {}
        Written::Pointers => pointer.write()?,
        Written::All => pointer.write_onward(onward)?,
    }
    Ok(pointer)
}

/// The output with one error, at steps of which some have this name in these parts. The path's first step leads to the origin.
fn output_at(
    alloc: Global,
    parts: &[bool; 3],
    place: &[bool; 3],
    name: &str,
    written: Written,
) -> Result<String, Fault> {
    let [in_origin, in_path, in_instance] = *parts;
    let steps = steps_of(&place_in(in_origin, place), name);
    let origin = origin_at(alloc, "urn:x", &steps)?;
    let steps = steps_of(&place_in(in_path, place), name);
    let mut path = pointer_to(alloc, &steps, 2, written)?;
    let steps = steps_of(&place_in(in_instance, place), name);
    let mut here = pointer_to(alloc, &steps, 0, written)?;
    let mut units = Units::new(alloc);
    let place = Place {
        origin: &origin,
        onward: 2,
    };
    place.push(&mut units, false, &mut path, &mut here, Says::NotAllowed)?;
    output_text(alloc, false, &units)
}

/// The text of that output, where the name has this token in a fragment and this one in a string.
fn wanted_at(
    alloc: Global,
    parts: &[bool; 3],
    place: &[bool; 3],
    fragment: &str,
    pointer: &str,
) -> Result<String, Fault> {
    let [in_origin, in_path, in_instance] = *parts;
    let path = place_in(in_path, place);
    let mut text = String::from_str(alloc, r#"{"errors":[{"absoluteKeywordLocation":"urn:x#"#)?;
    push_steps(&mut text, &place_in(in_origin, place), fragment)?;
    push_onward(&mut text, &path, fragment)?;
    text.push_str(r#"","error":"no value is allowed","instanceLocation":""#)?;
    push_steps(&mut text, &place_in(in_instance, place), pointer)?;
    text.push_str(r#"","keywordLocation":""#)?;
    push_steps(&mut text, &path, pointer)?;
    text.push_str(r#""}],"valid":false}"#)?;
    Ok(text)
}

fn expect_escaped_at(
    rt: &impl Abort,
    alloc: Global,
    row: &Row,
    parts: &[bool; 3],
    place: &[bool; 3],
    written: Written,
) {
    let (why, name, fragment, pointer) = *row;
    let found = output_at(alloc, parts, place, name, written);
    let wanted = wanted_at(alloc, parts, place, fragment, pointer);
    expect_same(rt, found, wanted, why);
}

fn expect_escaped_in_parts(rt: &impl Abort, alloc: Global, row: &Row, place: &[bool; 3]) {
    for parts in PARTS {
        expect_escaped_at(rt, alloc, row, parts, place, Written::Nothing);
        expect_escaped_at(rt, alloc, row, parts, place, Written::Pointers);
        expect_escaped_at(rt, alloc, row, parts, place, Written::All);
    }
}

fn expect_escaped(rt: &impl Abort, alloc: Global, row: &Row) {
    for place in PLACES {
        expect_escaped_in_parts(rt, alloc, row, place);
    }
}

#[test]
fn names_are_escaped_at_each_part(rt: HostRuntime) {
    for row in NAMES {
        expect_escaped(&rt, rt.alloc(), row);
    }
}

const UNDER_A_URN: &str =
    r#"{"annotations":[{"absoluteKeywordLocation":"urn:x#","annotation":true,"instanceLocation":"","keywordLocation":""}],"valid":true}"#;

const UNDER_A_QUOTATION_MARK: &str =
    r#"{"annotations":[{"absoluteKeywordLocation":"urn:\"x\\#","annotation":true,"instanceLocation":"","keywordLocation":""}],"valid":true}"#;

const UNDER_A_TAB: &str =
    r#"{"annotations":[{"absoluteKeywordLocation":"https://ex.org/a\tb/é#","annotation":true,"instanceLocation":"","keywordLocation":""}],"valid":true}"#;

/// Why a resource's URI is written so, the URI, as a program may give it, and the text of an output with an annotation at
/// its root.
const URIS: &[(&str, &str, &str)] = &[
    (
        "no character of the URI needs an escape",
        "urn:x",
        UNDER_A_URN,
    ),
    (
        "quotation marks and backslashes are escaped (RFC 8259, 7)",
        r#"urn:"x\"#,
        UNDER_A_QUOTATION_MARK,
    ),
    (
        "controls are escaped, and characters beyond ASCII are not",
        "https://ex.org/a\tb/é",
        UNDER_A_TAB,
    ),
];

/// The text of the output with an annotation at the root of what has this origin.
fn output_under(alloc: Global, origin: &Origin<'_>) -> Result<String, Fault> {
    let mut path = WrittenPointer::within(alloc, None)?;
    let mut here = WrittenPointer::within(alloc, None)?;
    let mut units = Units::new(alloc);
    let place = Place { origin, onward: 0 };
    place.push(&mut units, true, &mut path, &mut here, Says::True)?;
    output_text(alloc, true, &units)
}

fn output_under_uri(alloc: Global, uri: &str) -> Result<String, Fault> {
    output_under(alloc, &root_of(alloc, uri)?)
}

fn expect_uri(rt: &impl Abort, alloc: Global, row: &(&str, &str, &str)) {
    let (why, uri, wanted) = *row;
    expect_told(rt, alloc, output_under_uri(alloc, uri), wanted, why);
    let root = Origin::root(alloc, uri);
    expect_told(rt, alloc, output_under(alloc, &root), wanted, why);
}

#[test]
fn uris_are_escaped(rt: HostRuntime) {
    for row in URIS {
        expect_uri(&rt, rt.alloc(), row);
    }
}

/// Puts an error last, at this name behind the path, which is then as it was.
fn push_named<'a>(
    units: &mut Units,
    path: &mut WrittenPointer<'a>,
    origin: &Origin<'a>,
    here: &mut WrittenPointer<'a>,
    name: &'a str,
) -> Result<(), Fault> {
    path.push(Step::Name(name))?;
    let place = Place { origin, onward: 2 };
    place.push(units, false, path, here, Says::NotAllowed)?;
    path.truncate(1);
    Ok(())
}

/// The output with errors at four names, one after the other, behind another one.
fn come_and_gone(alloc: Global) -> Result<String, Fault> {
    let origin = root_of(alloc, "urn:x")?;
    let mut here = WrittenPointer::within(alloc, None)?;
    let mut path = WrittenPointer::within(alloc, None)?;
    let mut units = Units::new(alloc);
    path.push(Step::Name("a\"b"))?;
    push_named(&mut units, &mut path, &origin, &mut here, "\\")?;
    push_named(&mut units, &mut path, &origin, &mut here, "x")?;
    push_named(&mut units, &mut path, &origin, &mut here, "~")?;
    push_named(&mut units, &mut path, &origin, &mut here, "é")?;
    output_text(alloc, false, &units)
}

const COME_AND_GONE: &str =
    r#"{"errors":[{"absoluteKeywordLocation":"urn:x#/a%22b/%5C","error":"no value is allowed","instanceLocation":"","keywordLocation":"/a\"b/\\"},{"absoluteKeywordLocation":"urn:x#/a%22b/x","error":"no value is allowed","instanceLocation":"","keywordLocation":"/a\"b/x"},{"absoluteKeywordLocation":"urn:x#/a%22b/~0","error":"no value is allowed","instanceLocation":"","keywordLocation":"/a\"b/~0"},{"absoluteKeywordLocation":"urn:x#/a%22b/%C3%A9","error":"no value is allowed","instanceLocation":"","keywordLocation":"/a\"b/é"}],"valid":false}"#;

#[test]
fn steps_with_escapes_come_and_go(rt: HostRuntime) {
    let alloc = rt.alloc();
    expect_told(
        &rt,
        alloc,
        come_and_gone(alloc),
        COME_AND_GONE,
        "four names",
    );
}
