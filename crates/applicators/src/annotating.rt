//! How a keyword annotates.

ghost use Rattle.std.specs.Prelude.{◌≡◌, ◌==◌, ℕ, pos, true, List, Some, None, IfOk, if◌then◌else◌, length, map, option_map};
ghost use Rattle.definitions.specs.Values.{Text, Value, boolean, integer, string, array, elements, to_elements, is_array, is_object};
ghost use Rattle.definitions.specs.Applied.{Application, Outcome, Rules};
ghost use Rattle.definitions.specs.Evaluated.{annotation_of, evaluated_indexes, evaluated_names, last_index, once};
ghost use Rattle.json_doc.specs.NamedMembers.{name_text};
ghost use Rattle.keywords.specs.Rows.{row_of};
ghost use Rattle.basic_output.specs.Sayings.{says_value};
ghost use Rattle.applicators.specs.Annotations.{annotation_names};
ghost use Rattle.applicators.specs.Plans.{outcomes_of};
ghost use Rattle.applicators.specs.Subjects.{subject_value};

use crate::evaluated::Evaluated;
use crate::subject::Subject;
use basic_output::Says;
use json_doc::Name;
use keywords::Keyword;
use std::alloc::{AllocError, Global};
use std::collections::BTreeSet;

/// What the keyword annotates with, where it passes (JSON Schema 2020-12 Core, 10.3 and 11): `applied` is the number of
/// schemas that it applied, and `evaluated` what it evaluated itself, of `patternProperties` with [`distinct_names`].
pub fn annotate<'s, 'a>(
    keyword: Keyword,
    subject: Subject<'a>,
    applied: u64,
    evaluated: Evaluated<'s, 'a>,
) -> Option<Says<'s, 'a>>
    ensures { (a : Application) (rules : Rules) (run : Application → Outcome) (names : List Text)
        (indexes : List ℕ) (v : Value)
        → a.instance ≡ subject_value subject.entry
        → let os = outcomes_of rules run names indexes a (row_of keyword).name
        (row_of keyword).meaning v in
        applied ≡ length os → map name_text evaluated.entry.names.now
        ≡ annotation_names (row_of keyword).meaning (evaluated_names (row_of keyword).meaning os)
        → evaluated.entry.indexes.now ≡ evaluated_indexes (row_of keyword).meaning os
        → option_map says_value result ≡ annotation_of a (row_of keyword).meaning os }
{
    // What lends nothing returns at once, so that the arms that are joined all lend.
    match keyword {
        Keyword::Properties => annotate_names(subject, evaluated.names),
        Keyword::PatternProperties => annotate_names(subject, evaluated.names),
        Keyword::AdditionalProperties => annotate_names(subject, evaluated.names),
        Keyword::UnevaluatedProperties => annotate_names(subject, evaluated.names),
        Keyword::PrefixItems => annotate_prefix(subject, applied, evaluated.indexes),
        Keyword::Items => return annotate_true(applied),
        Keyword::UnevaluatedItems => return annotate_true(applied),
        Keyword::Contains => annotate_indexes(subject, evaluated.indexes),
        _ => None,
    }
}

/// Each of the names once, in the order in which they come first: `patternProperties` annotates with these, where
/// several patterns match a name (JSON Schema 2020-12 Core, 10.3.2.2). The only error is want of memory.
pub fn distinct_names<'a>(alloc: Global, names: &[Name<'a>]) -> Result<Vec<Name<'a>>, AllocError>
    ensures { IfOk result (λ kept. map name_text kept.items ≡ once (map name_text names.now)) }
{
    let mut seen = BTreeSet::new(alloc);
    let mut kept = Vec::new(alloc);
    for name in names {
        if seen.insert(name.as_str())? {
            kept.push(*name)?;
        }
    }
    Ok(kept)
}

// The names, on an object (10.3.2).
fn annotate_names<'s, 'a>(subject: Subject<'a>, names: &'s [Name<'a>]) -> Option<Says<'s, 'a>>
    ensures { option_map says_value result
        ≡ (if is_object (subject_value subject.entry) then Some
        (array (to_elements (map string (map name_text names.now)))) else None) }
{
    if subject.is_object() {
        Some(Says::Names(names))
    } else {
        None
    }
}

// The largest index, or `true` where that is the last one (10.3.1.1).
fn annotate_prefix<'s, 'a>(
    subject: Subject<'a>,
    applied: u64,
    indexes: &[usize],
) -> Option<Says<'s, 'a>>
    ensures { option_map says_value result
        ≡ (if applied == 0 then None else Some
        (if applied == length (elements (subject_value subject.entry)) then boolean
        true else integer (pos (last_index indexes.now)))) }
{
    if applied == 0 {
        None
    } else if applied == subject.elements().len() as u64 {
        Some(Says::True)
    } else {
        Some(Says::Index(last_index(indexes)))
    }
}

fn last_index(indexes: &[usize]) -> usize
    ensures { result ≡ last_index indexes.now }
{
    let count = indexes.len();
    if count == 0 { 0 } else { indexes[count - 1] }
}

// `true`, where something was applied (10.3.1.2).
fn annotate_true<'s, 'a>(applied: u64) -> Option<Says<'s, 'a>>
    ensures { option_map says_value result ≡ (if applied == 0 then None else Some (boolean true)) }
{
    if applied == 0 { None } else { Some(Says::True) }
}

// The indexes, on an array (10.3.1.3).
fn annotate_indexes<'s, 'a>(subject: Subject<'a>, indexes: &'s [usize]) -> Option<Says<'s, 'a>>
    ensures { option_map says_value result
        ≡ (if is_array (subject_value subject.entry) then Some
        (array (to_elements (map (λ i. integer (pos i)) indexes.now))) else None) }
{
    if subject.is_array() {
        Some(Says::Indexes(indexes))
    } else {
        None
    }
}
