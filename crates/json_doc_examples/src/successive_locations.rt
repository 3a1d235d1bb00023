//! Locations that are written one after the other, each from what it shares with the one before, by RFC 6901 and RFC 3986.

use crate::expectations::expect_same;
use crate::places::{Places, root_of};
use basic_output::{Says, Step, Units};
use json_doc::Fault;
use keywords::Keyword;
use output_texts::output_text;
use std::alloc::Global;
use std::process::Abort;

const ALL: Step<'static> = Step::Name("all");

const ONE: Step<'static> = Step::Name("one");

const TYPE: Step<'static> = Step::Keyword(Keyword::Type);

const ENUM: Step<'static> = Step::Name("enum");

/// Why steps have their texts behind those above, the steps, their pointer as a fragment, and their pointer in a string of
/// JSON.
type Row = (
    &'static str,
    &'static [Step<'static>],
    &'static str,
    &'static str,
);

/// Most share steps with the next.
const LOCATIONS: &[Row] = &[
    (
        "a step is a token behind a slash (RFC 6901, 3)",
        &[ALL],
        "/all",
        "/all",
    ),
    (
        "an index is its decimal digits (RFC 6901, 4)",
        &[ALL, Step::Index(0), ONE],
        "/all/0/one",
        "/all/0/one",
    ),
    (
        "a location that comes once more has the same text",
        &[ALL, Step::Index(0), ONE],
        "/all/0/one",
        "/all/0/one",
    ),
    (
        "a location may be the beginning of the one above",
        &[ALL, Step::Index(0)],
        "/all/0",
        "/all/0",
    ),
    (
        "a keyword is the token that its name is",
        &[ALL, Step::Index(0), ONE, TYPE],
        "/all/0/one/type",
        "/all/0/one/type",
    ),
    (
        "a slash in a name is `~1` (RFC 6901, 3)",
        &[ALL, Step::Index(0), Step::Name("a/b"), TYPE],
        "/all/0/a~1b/type",
        "/all/0/a~1b/type",
    ),
    (
        "nothing is left of the slash above",
        &[ALL, Step::Index(0), ONE, TYPE],
        "/all/0/one/type",
        "/all/0/one/type",
    ),
    (
        "a tilde in a name is `~0` (RFC 6901, 3)",
        &[ALL, Step::Index(0), Step::Name("a~b"), TYPE],
        "/all/0/a~0b/type",
        "/all/0/a~0b/type",
    ),
    (
        "nothing is left of the tilde above",
        &[ALL, Step::Index(0), ONE, TYPE],
        "/all/0/one/type",
        "/all/0/one/type",
    ),
    (
        "a quotation mark is escaped in a string, and encoded in a fragment",
        &[ALL, Step::Index(0), Step::Name(r#"a"b"#), TYPE],
        "/all/0/a%22b/type",
        r#"/all/0/a\"b/type"#,
    ),
    (
        "nothing is left of the quotation mark above",
        &[ALL, Step::Index(0), ONE, TYPE],
        "/all/0/one/type",
        "/all/0/one/type",
    ),
    (
        "a percent sign is encoded in a fragment alone (RFC 3986, 2.4)",
        &[ALL, Step::Index(0), Step::Name("a%b"), TYPE],
        "/all/0/a%25b/type",
        "/all/0/a%b/type",
    ),
    (
        "nothing is left of the percent sign above",
        &[ALL, Step::Index(0), ONE, TYPE],
        "/all/0/one/type",
        "/all/0/one/type",
    ),
    (
        "a blank is encoded in a fragment alone (RFC 3986, 3.5)",
        &[ALL, Step::Index(0), Step::Name("a b"), TYPE],
        "/all/0/a%20b/type",
        "/all/0/a b/type",
    ),
    (
        "nothing is left of the blank above",
        &[ALL, Step::Index(0), ONE, TYPE],
        "/all/0/one/type",
        "/all/0/one/type",
    ),
    (
        "a character beyond ASCII is encoded in a fragment alone (RFC 3986, 2.5)",
        &[ALL, Step::Index(0), Step::Name("ä"), TYPE],
        "/all/0/%C3%A4/type",
        "/all/0/ä/type",
    ),
    (
        "nothing is left of the character beyond ASCII above",
        &[ALL, Step::Index(0), ONE, TYPE],
        "/all/0/one/type",
        "/all/0/one/type",
    ),
    (
        "a backslash is escaped in a string, and encoded in a fragment",
        &[ALL, Step::Index(0), Step::Name(r#"a\b"#), TYPE],
        "/all/0/a%5Cb/type",
        r#"/all/0/a\\b/type"#,
    ),
    (
        "nothing is left of the backslash above",
        &[ALL, Step::Index(0), ONE, TYPE],
        "/all/0/one/type",
        "/all/0/one/type",
    ),
    (
        "an empty name is an empty token (RFC 6901, 5)",
        &[ALL, Step::Index(0), Step::Name(""), TYPE],
        "/all/0//type",
        "/all/0//type",
    ),
    (
        "nothing is left of the empty name above",
        &[ALL, Step::Index(0), ONE, TYPE],
        "/all/0/one/type",
        "/all/0/one/type",
    ),
    (
        "the last step alone may be another",
        &[ALL, Step::Index(0), ONE, ENUM],
        "/all/0/one/enum",
        "/all/0/one/enum",
    ),
    (
        "an index in the middle may be another",
        &[ALL, Step::Index(1), ONE, ENUM],
        "/all/1/one/enum",
        "/all/1/one/enum",
    ),
    (
        "an index may go on from the one above",
        &[ALL, Step::Index(10), ONE, ENUM],
        "/all/10/one/enum",
        "/all/10/one/enum",
    ),
    (
        "a name of digits has the token of that index",
        &[ALL, Step::Name("10"), ONE],
        "/all/10/one",
        "/all/10/one",
    ),
    (
        "the whole document's pointer is empty (RFC 6901, 5)",
        &[],
        "",
        "",
    ),
    (
        "steps come back behind the empty pointer",
        &[ALL, Step::Index(10)],
        "/all/10",
        "/all/10",
    ),
    (
        "a name may be the beginning of the one above",
        &[Step::Name("al")],
        "/al",
        "/al",
    ),
    (
        "a name may go on from the one above",
        &[Step::Name("alls"), Step::Index(10)],
        "/alls/10",
        "/alls/10",
    ),
    (
        "a first step's blank is encoded as well",
        &[Step::Name("a b"), TYPE],
        "/a%20b/type",
        "/a b/type",
    ),
    (
        "a first step's blank stays where the last step is another",
        &[Step::Name("a b"), ENUM],
        "/a%20b/enum",
        "/a b/enum",
    ),
    ("a keyword may be the only step", &[TYPE], "/type", "/type"),
];

/// Of a location with these steps.
fn resource_of(steps: &[Step<'_>]) -> &'static str {
    if steps.len() == 3 {
        "urn:x"
    } else {
        "https://ex.org/s"
    }
}

/// Puts an error last, at this location and at that one of the instance.
fn push_at(
    alloc: Global,
    units: &mut Units,
    places: &mut Places<'static>,
    path: &'static [Step<'static>],
    instance_location: &'static [Step<'static>],
) -> Result<(), Fault> {
    let origin = root_of(alloc, resource_of(path))?;
    places.turn_to(path, instance_location)?;
    places.push(units, false, &origin, Says::NotAllowed)
}

/// The output with errors at these locations in turn, and at those of the instance in the opposite order.
fn output_at(alloc: Global, locations: &[Row]) -> Result<String, Fault> {
    let mut units = Units::new(alloc);
    let mut places = Places::new(alloc)?;
    for (row, instance) in locations.iter().zip(locations.iter().rev()) {
        push_at(alloc, &mut units, &mut places, row.1, instance.1)?;
    }
    output_text(alloc, false, &units)
}

/// Appends the text of the error at this location, by the columns of the table.
fn push_text(text: &mut String, row: &Row, instance_location: &str) -> Result<(), Fault> {
    let (_, path, fragment, pointer) = *row;
    if text.as_str().ends_with("}") {
        text.push_str(",")?;
    }
    text.push_str(r#"{"absoluteKeywordLocation":""#)?;
    text.push_str(resource_of(path))?;
    text.push_str("#")?;
    text.push_str(fragment)?;
    text.push_str(r#"","error":"no value is allowed","instanceLocation":""#)?;
    text.push_str(instance_location)?;
    text.push_str(r#"","keywordLocation":""#)?;
    text.push_str(pointer)?;
    text.push_str(r#""}"#)?;
    Ok(())
}

fn wanted_at(alloc: Global, locations: &[Row]) -> Result<String, Fault> {
    let mut text = String::from_str(alloc, r#"{"errors":["#)?;
    for (row, instance) in locations.iter().zip(locations.iter().rev()) {
        push_text(&mut text, row, instance.3)?;
    }
    text.push_str(r#"],"valid":false}"#)?;
    Ok(text)
}

fn expect_locations(rt: &impl Abort, alloc: Global, rows: &[Row]) {
    expect_same(
        rt,
        output_at(alloc, rows),
        wanted_at(alloc, rows),
        rows.first().map_or("", |row| row.0),
    );
}

#[test]
fn writes_locations_after_one_another(rt: HostRuntime) {
    for start in 0..LOCATIONS.len() {
        expect_locations(&rt, rt.alloc(), &LOCATIONS[start..]);
    }
}
