//! The parts of a URI reference, and the test whether they identify a resource.

ghost use Rattle.std.specs.Prelude.{◌≡◌, None, option_map};
ghost use Rattle.std.specs.List.{list_any, slice_split};
ghost use Rattle.definitions.specs.Bytes.{slash};
ghost use Rattle.definitions.specs.Uris.{is_identifier, is_dot_segment};
ghost use Rattle.std.specs.Prelude.{◌==◌};

use std::marker::Model;

/// The parts of a URI reference (RFC 3986, section 3), borrowed from its text.
///
/// Contracts see the parts as `definitions` has them, each as its bytes. Each is free of the signs that would end it.
#[derive(Debug, Drop)]
pub struct Parts<'a> {
    pub(crate) scheme: Option<&'a str>,
    pub(crate) authority: Option<&'a str>,
    pub(crate) path: &'a str,
    pub(crate) query: Option<&'a str>,
    pub(crate) fragment: Option<&'a str>,
}

impl<'a> Model for Parts<'a> {
    ghost use Rattle.definitions.specs.Uris.{Parts as UriParts};

    ghost Value = { UriParts };

    ghost use Rattle.uri_ref.specs.Views.{parts};
    ghost use Rattle.uri_ref.specs.Soundness.{AreSound};

    ghost view = { parts };

    ghost invariant = { λ p. AreSound (parts p) };
}

impl<'a> Parts<'a> {
    /// The scheme, without its `:` (section 3.1).
    pub fn scheme(&self) -> Option<&'a str>
        ensures { option_map (λ t. t.now) result ≡ self.now.scheme }
    {
        self.scheme
    }

    /// The authority, without its `//` (section 3.2).
    pub fn authority(&self) -> Option<&'a str>
        ensures { option_map (λ t. t.now) result ≡ self.now.authority }
    {
        self.authority
    }

    /// The path, which may be empty (section 3.3).
    pub fn path(&self) -> &'a str
        ensures { result.now ≡ self.now.path }
    {
        self.path
    }

    /// The query, without its `?` (section 3.4).
    pub fn query(&self) -> Option<&'a str>
        ensures { option_map (λ t. t.now) result ≡ self.now.query }
    {
        self.query
    }

    /// The fragment, without its `#` (section 3.5).
    pub fn fragment(&self) -> Option<&'a str>
        ensures { option_map (λ t. t.now) result ≡ self.now.fragment }
    {
        self.fragment
    }

    /// These parts, without the fragment if there is one.
    pub fn without_fragment(&self) -> Parts<'a>
        ensures { result ≡ record self.now { fragment = None } }
    {
        Parts {
            scheme: self.scheme,
            authority: self.authority,
            path: self.path,
            query: self.query,
            fragment: None,
        }
    }
}

/// Whether the parts identify a resource: they have a scheme, no fragment and no dot segment, and a path that begins with
/// `//` stands after an authority. This takes no memory.
pub fn is_identifier(parts: &Parts) -> bool
    ensures { result ≡ is_identifier parts.now }
{
    parts.scheme.is_some()
        && parts.fragment.is_none()
        && !has_dot_segment(parts.path)
        && (parts.authority.is_some() || !parts.path.starts_with("//"))
}

// Whether some segment of the path is `.` or `..`.
fn has_dot_segment(path: &str) -> bool
    ensures { result ≡ list_any is_dot_segment (slice_split (λ c. c == slash) path.now) }
{
    path.split('/').any(|segment| is_dot_segment(segment))
}

fn is_dot_segment(segment: &str) -> bool
    ensures { result ≡ is_dot_segment segment.now }
{
    segment == "." || segment == ".."
}
