//! Texts of outputs, by the rules of JSON Schema 2020-12 Core, 12.4, RFC 6901 and RFC 3986.

use crate::expectations::{expect_same, expect_told};
use crate::places::{Place, Places, origin_at, root_of, turn_to};
use basic_output::{Mark, Says, Step, Units, WrittenPointer};
use json_doc::{Fault, read};
use keywords::Keyword;
use output_texts::output_text;
use std::alloc::Global;
use std::process::Abort;

/// Puts an error last, there in the resource of the examples.
fn push_error(
    alloc: Global,
    units: &mut Units,
    places: &mut Places<'static>,
    says: Says<'static, 'static>,
) -> Result<(), Fault> {
    let origin = root_of(alloc, "https://ex.org/s")?;
    places.push(units, false, &origin, says)
}

/// The same at a mark.
fn insert_error(
    alloc: Global,
    units: &mut Units,
    mark: Mark,
    places: &mut Places<'static>,
    says: Says<'static, 'static>,
) -> Result<(), Fault> {
    let origin = root_of(alloc, "https://ex.org/s")?;
    places.insert_error(units, mark, &origin, says)
}

fn required_error(alloc: Global) -> Result<String, Fault> {
    let mut units = Units::new(alloc);
    let mut places = Places::new(alloc)?;
    places.turn_to(&[Step::Name("required")], &[])?;
    push_error(
        alloc,
        &mut units,
        &mut places,
        Says::NotMet(Keyword::Required),
    )?;
    output_text(alloc, false, &units)
}

const REQUIRED: &str =
    r#"{"errors":[{"absoluteKeywordLocation":"https://ex.org/s#/required","error":"required is not met","instanceLocation":"","keywordLocation":"/required"}],"valid":false}"#;

#[test]
fn writes_annotations_or_errors(rt: HostRuntime) {
    let alloc = rt.alloc();
    let units = Units::new(alloc);
    let valid = output_text(alloc, true, &units);
    expect_told(
        &rt,
        alloc,
        valid,
        r#"{"annotations":[],"valid":true}"#,
        "no annotations",
    );
    let invalid = output_text(alloc, false, &units);
    expect_told(
        &rt,
        alloc,
        invalid,
        r#"{"errors":[],"valid":false}"#,
        "no errors",
    );
    expect_told(&rt, alloc, required_error(alloc), REQUIRED, "an error");
}

fn annotation(alloc: Global, says: Says<'_, '_>) -> Result<String, Fault> {
    let mut units = Units::new(alloc);
    let origin = root_of(alloc, "https://ex.org/s")?;
    Places::new(alloc)?.push(&mut units, true, &origin, says)?;
    output_text(alloc, true, &units)
}

// The text of the output with this annotation.
fn annotated(alloc: Global, annotation: &str) -> Result<String, Fault> {
    let mut text = String::new(alloc);
    text.push_str(
        r#"{"annotations":[{"absoluteKeywordLocation":"https://ex.org/s#","annotation":"#,
    )?;
    text.push_str(annotation)?;
    text.push_str(r#","instanceLocation":"","keywordLocation":""}],"valid":true}"#)?;
    Ok(text)
}

fn expect_annotation(rt: &impl Abort, alloc: Global, says: Says<'_, '_>, wanted: &str) {
    expect_same(
        rt,
        annotation(alloc, says),
        annotated(alloc, wanted),
        wanted,
    );
}

#[test]
fn writes_what_units_say(rt: HostRuntime) {
    expect_annotation(
        &rt,
        rt.alloc(),
        Says::NotAllowed,
        r#""no value is allowed""#,
    );
    expect_annotation(&rt, rt.alloc(), Says::True, "true");
    expect_annotation(&rt, rt.alloc(), Says::Index(10), "10");
    expect_annotation(&rt, rt.alloc(), Says::Indexes(&[0, 2]), "[0,2]");
}

// Why a value is written so, the value, and its text as an annotation.
const VALUES: &[(&str, &str, &str)] = &[
    (
        "members are written in byte order of their names",
        r#"{"b":[1,null],"a":"x"}"#,
        r#"{"a":"x","b":[1,null]}"#,
    ),
    (
        "a slash within a string needs no escape (RFC 8259, 7)",
        r#""x/y""#,
        r#""x/y""#,
    ),
    (
        "a quotation mark is escaped (RFC 8259, 7)",
        r#""x\"y""#,
        r#""x\"y""#,
    ),
    (
        "a backslash is escaped (RFC 8259, 7)",
        r#""\\d{2}""#,
        r#""\\d{2}""#,
    ),
    (
        "controls are escaped, by a short form where there is one",
        r#""\u0001\t\n""#,
        r#""\u0001\t\n""#,
    ),
    (
        "characters beyond ASCII need no escape",
        r#""é 数 𝕏""#,
        r#""é 数 𝕏""#,
    ),
    (
        "a long text is escaped up to its end",
        r#""a text of more than thirty-two bytes \\""#,
        r#""a text of more than thirty-two bytes \\""#,
    ),
];

fn value_annotation(alloc: Global, value: &str) -> Result<String, Fault> {
    let value = read(alloc, value.as_bytes())?;
    annotation(alloc, Says::Value(&value))
}

fn expect_value(rt: &impl Abort, alloc: Global, row: &(&str, &str, &str)) {
    let (why, value, wanted) = *row;
    expect_same(
        rt,
        value_annotation(alloc, value),
        annotated(alloc, wanted),
        why,
    );
}

#[test]
fn writes_values_that_units_say(rt: HostRuntime) {
    for row in VALUES {
        expect_value(&rt, rt.alloc(), row);
    }
}

fn escaped(alloc: Global) -> Result<String, Fault> {
    let mut units = Units::new(alloc);
    let steps = [Step::Name("~/%"), Step::Name("ä \""), Step::Name("\u{1}\n")];
    let origin = origin_at(alloc, "urn:x", &steps)?;
    let mut places = Places::new(alloc)?;
    places.turn_to(
        &[Step::Name("$ref"), Step::Name("~/%")],
        &[Step::Name("ä \""), Step::Index(12), Step::Name("\u{1}\n")],
    )?;
    places.push_error(&mut units, &origin, 0, Says::NotAllowed)?;
    output_text(alloc, false, &units)
}

const ESCAPED: &str =
    r#"{"errors":[{"absoluteKeywordLocation":"urn:x#/~0~1%25/%C3%A4%20%22/%01%0A","error":"no value is allowed","instanceLocation":"/ä \"/12/\u0001\n","keywordLocation":"/$ref/~0~1%"}],"valid":false}"#;

#[test]
fn escapes_locations(rt: HostRuntime) {
    expect_told(&rt, rt.alloc(), escaped(rt.alloc()), ESCAPED, "three names");
}

/// Puts the error of a subschema, then one that is cut off again, and at the mark that of the keyword.
fn push_marked(alloc: Global, units: &mut Units, own: Mark) -> Result<(), Fault> {
    let mut places = Places::new(alloc)?;
    push_marked_at(alloc, units, own, &mut places)
}

fn push_marked_at(
    alloc: Global,
    units: &mut Units,
    own: Mark,
    places: &mut Places<'static>,
) -> Result<(), Fault> {
    let path = [Step::Name("anyOf"), Step::Index(1), Step::Name("type")];
    places.turn_to(&path, &[])?;
    push_error(alloc, units, places, Says::NotMet(Keyword::Type))?;
    let later = units.mark();
    places.turn_to(&path[..2], &[])?;
    push_error(alloc, units, places, Says::NotAllowed)?;
    units.cut_back(later);
    places.turn_to(&path[..1], &[])?;
    insert_error(alloc, units, own, places, Says::NotMet(Keyword::AnyOf))
}

fn marked(alloc: Global) -> Result<String, Fault> {
    let mut units = Units::new(alloc);
    let own = units.mark();
    push_marked(alloc, &mut units, own)?;
    output_text(alloc, false, &units)
}

fn cut_off(alloc: Global) -> Result<String, Fault> {
    let mut units = Units::new(alloc);
    let own = units.mark();
    push_marked(alloc, &mut units, own)?;
    units.cut_back(own);
    output_text(alloc, false, &units)
}

const MARKED: &str =
    r#"{"errors":[{"absoluteKeywordLocation":"https://ex.org/s#/anyOf","error":"anyOf is not met","instanceLocation":"","keywordLocation":"/anyOf"},{"absoluteKeywordLocation":"https://ex.org/s#/anyOf/1/type","error":"type is not met","instanceLocation":"","keywordLocation":"/anyOf/1/type"}],"valid":false}"#;

#[test]
fn puts_units_at_marks_and_cuts_them_off(rt: HostRuntime) {
    let alloc = rt.alloc();
    expect_told(&rt, alloc, marked(alloc), MARKED, "at a mark");
    let nothing = r#"{"errors":[],"valid":false}"#;
    expect_told(&rt, alloc, cut_off(alloc), nothing, "cut off");
}

/// The text of an error at the last steps of this pointer, so many.
fn error_at(
    alloc: Global,
    path: &mut WrittenPointer<'static>,
    onward: usize,
) -> Result<String, Fault> {
    let origin = root_of(alloc, "urn:x")?;
    let mut root = WrittenPointer::within(alloc, None)?;
    let mut units = Units::new(alloc);
    let place = Place {
        origin: &origin,
        onward,
    };
    place.push(&mut units, false, path, &mut root, Says::NotAllowed)?;
    output_text(alloc, false, &units)
}

const FOUR: &[Step<'static>] = &[
    Step::Name("a"),
    Step::Index(7),
    Step::Name("b"),
    Step::Name("c"),
];

/// Four steps without the last ones, so many.
fn shortened(alloc: Global, without: usize) -> Result<WrittenPointer<'static>, Fault> {
    let mut pointer = WrittenPointer::within(alloc, None)?;
    turn_to(&mut pointer, FOUR)?;
    pointer.truncate(FOUR.len().saturating_sub(without));
    Ok(pointer)
}

fn error_at_shortened(alloc: Global, without: usize, onward: usize) -> Result<String, Fault> {
    error_at(alloc, &mut shortened(alloc, without)?, onward)
}

/// How many of four steps are taken away, how many of the others lead on from the origin, and the text of the output.
struct End {
    why: &'static str,
    without: usize,
    onward: usize,
    wanted: &'static str,
}

const AT_TWO_OF_FOUR: &str =
    r#"{"errors":[{"absoluteKeywordLocation":"urn:x#/b/c","error":"no value is allowed","instanceLocation":"","keywordLocation":"/a/7/b/c"}],"valid":false}"#;

const AT_ONE_OF_THREE: &str =
    r#"{"errors":[{"absoluteKeywordLocation":"urn:x#/b","error":"no value is allowed","instanceLocation":"","keywordLocation":"/a/7/b"}],"valid":false}"#;

const AT_BOTH_OF_TWO: &str =
    r#"{"errors":[{"absoluteKeywordLocation":"urn:x#/a/7","error":"no value is allowed","instanceLocation":"","keywordLocation":"/a/7"}],"valid":false}"#;

const ENDS: &[End] = &[
    End {
        why: "the absolute location has the steps behind the last reference alone",
        without: 0,
        onward: 2,
        wanted: AT_TWO_OF_FOUR,
    },
    End {
        why: "a step that is taken away stands in neither location",
        without: 1,
        onward: 1,
        wanted: AT_ONE_OF_THREE,
    },
    End {
        why: "without a reference both locations have the same steps",
        without: 2,
        onward: 2,
        wanted: AT_BOTH_OF_TWO,
    },
];

fn expect_end(rt: &impl Abort, alloc: Global, row: &End) {
    let found = error_at_shortened(alloc, row.without, row.onward);
    expect_told(rt, alloc, found, row.wanted, row.why);
}

#[test]
fn pointers_begin_and_end(rt: HostRuntime) {
    for row in ENDS {
        expect_end(&rt, rt.alloc(), row);
    }
}

fn error_behind_a_reference(alloc: Global) -> Result<String, Fault> {
    let mut units = Units::new(alloc);
    let steps = [Step::Name("$defs"), Step::Name("point")];
    let origin = origin_at(alloc, "https://example.com/polygon", &steps)?;
    let mut places = Places::new(alloc)?;
    let path = [
        Step::Name("items"),
        Step::Name("$ref"),
        Step::Name("required"),
    ];
    places.turn_to(&path, &[Step::Index(1)])?;
    let says = Says::NotMet(Keyword::Required);
    places.push_error(&mut units, &origin, 1, says)?;
    output_text(alloc, false, &units)
}

/// The locations of an error behind a reference, as the example of JSON Schema 2020-12 Core, 12.4.2 has them.
const BEHIND_A_REFERENCE: &str =
    r#"{"errors":[{"absoluteKeywordLocation":"https://example.com/polygon#/$defs/point/required","error":"required is not met","instanceLocation":"/1","keywordLocation":"/items/$ref/required"}],"valid":false}"#;

#[test]
fn locations_lead_on_from_what_a_reference_names(rt: HostRuntime) {
    let found = error_behind_a_reference(rt.alloc());
    expect_told(&rt, rt.alloc(), found, BEHIND_A_REFERENCE, "polygon");
}
