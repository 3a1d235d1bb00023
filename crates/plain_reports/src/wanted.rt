//! What a schema asks for where a keyword isn't met.

use crate::instance_texts::InstanceText;
use crate::sentences::unmet;
use crate::shortening::shortened;
use crate::units::ErrorUnit;
use json_doc::{Doc, Fault, write};
use keywords::Keyword;
use std::alloc::Global;

/// Schemas, of which a keyword's value is found by its absolute location.
pub trait Schemas {
    /// The value of the keyword at this location, which is the URI of a resource and a pointer as its fragment; none where
    /// there is none, or memory ran out for it.
    fn keyword_value(&self, alloc: Global, location: &str) -> Option<&Doc>;
}

/// What the keyword of the error asks for, shortened: its value, or of `required` the names that the instance lacks. None
/// where its value says no more than the sentence does, or isn't found. The only error is want of memory.
pub(crate) fn wanted<S: Schemas>(
    alloc: Global,
    schemas: &S,
    text: &InstanceText<'_>,
    cause: &ErrorUnit<'_>,
) -> Result<Option<String>, Fault> {
    let Some(keyword) = unmet(cause.error) else {
        return Ok(None);
    };
    let Some(value) = schemas.keyword_value(alloc, cause.absolute_location) else {
        return Ok(None);
    };
    match keyword {
        Keyword::Required => {
            let instance = text.value_at(alloc, cause.instance_location)?;
            Ok(Some(missing_names(alloc, value, instance)?))
        }
        _ if tells_what(keyword) => Ok(Some(shown_value(alloc, value)?)),
        _ => Ok(None),
    }
}

// Whether the keyword's value tells what is asked for.
fn tells_what(keyword: Keyword) -> bool {
    matches!(
        keyword,
        Keyword::Type
            | Keyword::Enum
            | Keyword::Const
            | Keyword::MultipleOf
            | Keyword::Maximum
            | Keyword::ExclusiveMaximum
            | Keyword::Minimum
            | Keyword::ExclusiveMinimum
            | Keyword::MaxLength
            | Keyword::MinLength
            | Keyword::Pattern
            | Keyword::MaxProperties
            | Keyword::MinProperties
            | Keyword::MaxItems
            | Keyword::MinItems
    )
}

fn shown_value(alloc: Global, value: &Doc) -> Result<String, Fault> {
    let text = write(alloc, value)?;
    Ok(shortened(alloc, text.as_str())?)
}

// The names of the list that the instance has no member of, with commas between them.
fn missing_names(alloc: Global, names: &Doc, instance: Option<&Doc>) -> Result<String, Fault> {
    let mut missing = String::new(alloc);
    for name in names.as_list().unwrap_or(&[]) {
        if !has_member(instance, name) {
            push_name(alloc, &mut missing, name)?;
        }
    }
    Ok(shortened(alloc, missing.as_str())?)
}

fn has_member(instance: Option<&Doc>, name: &Doc) -> bool {
    match (instance, name.as_str()) {
        (Some(instance), Some(name)) => instance.get(name).is_some(),
        _ => false,
    }
}

fn push_name(alloc: Global, names: &mut String, name: &Doc) -> Result<(), Fault> {
    if !names.is_empty() {
        names.push_str(", ")?;
    }
    names.push_str(write(alloc, name)?.as_str())?;
    Ok(())
}
