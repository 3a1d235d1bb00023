//! The texts of patterns: what stands under `pattern`, and the names under `patternProperties` (JSON Schema 2020-12 Core,
//! section 10.3.2.2; Validation, section 6.3.3).

ghost use Rattle.std.specs.Prelude.{◌≡◌, ◌++◌, OnOk, map, option_map, option_and_then};
ghost use Rattle.definitions.specs.Values.{get};
ghost use Rattle.json_doc.specs.Docs.{value, members_value};
ghost use Rattle.json_doc.specs.Kinds.{as_members};
ghost use Rattle.schema_table.specs.PatternTexts.{patterns_at, names_at};

use json_doc::{Doc, Members};
use std::alloc::AllocError;

/// Appends the patterns of a schema, but not those of its subschemas.
pub(crate) fn push_patterns<'t>(texts: &mut Vec<&'t str>, schema: &'t Doc) -> Result<(), AllocError>
    ensures { OnOk result (map (λ t. t.now) texts.new.items
        ≡ map (λ t. t.now) texts.old.items ++ patterns_at (value schema.now)) }
{
    if let Some(text) = schema.text_at("pattern") {
        texts.push(text)?;
    }
    push_names_at(texts, schema, "patternProperties")
}

// Appends the names of the members that stand under this keyword.
fn push_names_at<'t>(
    texts: &mut Vec<&'t str>,
    schema: &'t Doc,
    keyword: &str,
) -> Result<(), AllocError>
    ensures { OnOk result (map (λ t. t.now) texts.new.items
        ≡ map (λ t. t.now) texts.old.items ++ names_at keyword.now (value schema.now)) }
{
    match members_at(schema, keyword) {
        Some(members) => push_names(texts, members),
        None => Ok(()),
    }
}

fn members_at<'t>(schema: &'t Doc, keyword: &str) -> Option<&'t Members>
    ensures { option_map (λ m. members_value m.now) result
        ≡ option_and_then as_members (get keyword.now (value schema.now)) }
{
    schema.get(keyword)?.as_dict()
}

fn push_names<'t>(texts: &mut Vec<&'t str>, members: &'t Members) -> Result<(), AllocError>
    ensures { OnOk result (map (λ t. t.now) texts.new.items
        ≡ map (λ t. t.now) texts.old.items ++ map (λ m. m.0) (members_value members.now)) }
{
    for (name, _) in members.iter() {
        texts.push(name)?;
    }
    Ok(())
}
