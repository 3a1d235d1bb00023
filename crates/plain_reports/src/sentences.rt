//! What an error says of a value, in words.

use keywords::Keyword;

/// The keyword that isn't met, by the error of its unit, as `type is not met`; none where the error is another, or no keyword
/// has the name.
pub(crate) fn unmet(error: &str) -> Option<Keyword> {
    Keyword::named(error.strip_suffix(" is not met")?)
}

/// What a value is or does where the keyword of this error isn't met.
pub(crate) fn predicate(error: &str) -> &'static str {
    match unmet(error) {
        Some(keyword) => predicate_of(keyword),
        None => "is not allowed here",
    }
}

fn predicate_of(keyword: Keyword) -> &'static str {
    match keyword {
        Keyword::Type => "is of another type than the schema allows",
        Keyword::Enum => "is none of the values that the schema lists",
        Keyword::Const => "is not the one value that the schema allows",
        Keyword::MultipleOf => "is no multiple of the number in the schema",
        Keyword::Maximum => "is above the maximum",
        Keyword::ExclusiveMaximum => "is not below the exclusive maximum",
        Keyword::Minimum => "is below the minimum",
        Keyword::ExclusiveMinimum => "is not above the exclusive minimum",
        Keyword::MaxLength => "has too many characters",
        Keyword::MinLength => "has too few characters",
        Keyword::Pattern => "doesn't match the pattern",
        Keyword::MaxProperties => "has too many members",
        Keyword::MinProperties => "has too few members",
        Keyword::Required => "lacks a member that is required",
        Keyword::DependentRequired => "lacks a member that another one requires",
        Keyword::MaxItems => "has too many elements",
        Keyword::MinItems => "has too few elements",
        Keyword::UniqueItems => "has two elements that are equal",
        Keyword::AnyOf => "matches none of the schemas",
        Keyword::OneOf => "doesn't match exactly one of the schemas",
        Keyword::Not => "matches a schema that it must not match",
        Keyword::Contains => "has too few elements that match, or too many",
        _ => "is not allowed by the schema",
    }
}
