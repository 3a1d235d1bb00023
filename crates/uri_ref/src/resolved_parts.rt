//! The parts that a reference resolves to.

ghost use Rattle.std.specs.Prelude.{◌≡◌};

use crate::parts::Parts;
use std::marker::Model;

/// The parts of a URI reference that has been resolved (RFC 3986, section 5.2.2). The path is its own text; the other parts
/// are borrowed from the texts of the reference and the base.
///
/// Contracts see the parts as `definitions` has them, each as its bytes. They need not be parts of a text: `/.//a` against
/// `x:/b` has no authority, and a path that begins with `//`.
#[derive(Debug, Drop)]
pub struct ResolvedParts<'a> {
    pub(crate) scheme: Option<&'a str>,
    pub(crate) authority: Option<&'a str>,
    pub(crate) path: String,
    pub(crate) query: Option<&'a str>,
    pub(crate) fragment: Option<&'a str>,
}

impl<'a> Model for ResolvedParts<'a> {
    ghost use Rattle.definitions.specs.Uris.{Parts as UriParts};

    ghost Value = { UriParts };

    ghost use Rattle.uri_ref.specs.ResolvedViews.{resolved_parts};
    ghost use Rattle.uri_ref.specs.Soundness.{AreSound};

    ghost view = { resolved_parts };

    ghost invariant = { λ p. AreSound (resolved_parts p) };
}

impl<'a> ResolvedParts<'a> {
    /// The parts, borrowed. This takes no memory.
    pub fn parts(&self) -> Parts<'_>
        ensures { result ≡ self.now }
    {
        Parts {
            scheme: self.scheme,
            authority: self.authority,
            path: self.path.as_str(),
            query: self.query,
            fragment: self.fragment,
        }
    }
}
