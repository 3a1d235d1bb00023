//! Patterns of `patternProperties` with their numbers (JSON Schema 2020-12 Core, 10.3.2.2).

ghost use Rattle.std.specs.Prelude.{◌≡◌, ◌++◌, [], map, OnOk};
ghost use Rattle.std.specs.List.{All};
ghost use Rattle.definitions.specs.Schemas.{Schema};
ghost use Rattle.json_doc.specs.Docs.{members_value};
ghost use Rattle.keyword_plans.specs.Applications.{ArePatternsOf};
ghost use Rattle.keyword_plans.specs.NumberedPatterns.{IsNumbered, numbered_view};
ghost use Rattle.keyword_plans.specs.SearchedIn.{searched_in};

use crate::searches::Searches;
use json_doc::{Doc, Members, Name};
use linker::PatternNumber;
use std::alloc::AllocError;

/// A pattern, the schema under it, and the number by which it is searched for.
///
/// Contracts see the first two, by `numbered_view`.
#[derive(Clone, Copy, Debug)]
pub(crate) struct NumberedPattern<'a> {
    pub(crate) pattern: Name<'a>,
    pub(crate) schema: &'a Doc,
    pub(crate) number: PatternNumber,
}

/// Appends the patterns, each with its number, which is told once for all names that are searched for it: patterns of a schema of
/// the documents' resource with this URI. The only error is want of memory.
pub(crate) fn push_numbered<'a>(
    numbered: &mut Vec<NumberedPattern<'a>>,
    searches: &mut Searches<'a>,
    resource: &str,
    patterns: &'a Members,
) -> Result<(), AllocError>
    requires { numbered.old.items ≡ [] }
    ensures patterns { (s : Schema)
        → ArePatternsOf (searched_in searches.old).now resource.now s (members_value patterns.now)
        → OnOk result (map numbered_view numbered.new.items ≡ members_value patterns.now) }
    ensures numbers { (s : Schema)
        → ArePatternsOf (searched_in searches.old).now resource.now s (members_value patterns.now)
        → OnOk result (All (IsNumbered (searched_in searches.old).now) numbered.new.items) }
    ensures searched { searched_in searches.new ≡ searched_in searches.old }
{
    for (pattern, schema) in patterns.iter().named() {
        match searches.number(resource, pattern.as_str())? {
            Some(number) => numbered.push(NumberedPattern {
                pattern,
                schema,
                number,
            })?,
            // Never: a schema of the resource has the pattern.
            None => {}
        }
    }
    Ok(())
}
