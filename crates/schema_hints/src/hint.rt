//! A warning, and an anchor, with where it stands.

use std::fmt;

/// What is told of a name in a schema.
#[derive(Clone, Copy, Debug, Drop, PartialEq, Eq)]
pub enum Warning {
    /// The name is no keyword, but looks like this one, so nothing is checked.
    LooksLike(&'static str),
    /// The name is a keyword of older drafts, which 2020-12 doesn't look at; this stands in its place now.
    Older(&'static str),
    /// `definitions`, which is `$defs` by now, and into which nothing that is known refers.
    UnusedDefinitions,
    /// `format` annotates, and asserts nothing.
    Format,
}

/// A warning of a name in a schema.
#[derive(Debug, Drop)]
pub struct Hint {
    /// The pointer to the name's value, from the document's root.
    pub location: String,
    /// The name.
    pub name: String,
    /// What is told of it.
    pub warning: Warning,
}

/// An anchor of a schema.
#[derive(Debug, Drop)]
pub struct Anchor {
    /// The pointer to the schema, from the document's root.
    pub location: String,
    /// Its name.
    pub name: String,
    /// Whether it is a `$dynamicAnchor`.
    pub is_dynamic: bool,
}

/// The location and a sentence, on one line.
impl fmt::Display for Hint {
    fn fmt<W: fmt::Write>(&self, f: &mut fmt::Formatter<W>) -> fmt::Result {
        let (location, name) = (self.location.as_str(), self.name.as_str());
        match self.warning {
            Warning::LooksLike(keyword) => {
                write!(
                    f,
                    "{location}: {name} is no keyword; did you mean {keyword}?"
                )
            }
            Warning::Older(keyword) => {
                write!(
                    f,
                    "{location}: {name} is of an older draft, and not looked at; write {keyword}"
                )
            }
            Warning::UnusedDefinitions => {
                write!(
                    f,
                    "{location}: {name} is $defs by now, and nothing here refers into it"
                )
            }
            Warning::Format => write!(f, "{location}: {name} annotates, and asserts nothing here"),
        }
    }
}
