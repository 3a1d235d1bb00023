//! What a reference resolves to against a base (RFC 3986, section 5.2).

ghost use Rattle.std.specs.Prelude.{◌≡◌, ◌++◌, IfOk, codes, if◌then◌else◌, is_some, string_bytes};
ghost use Rattle.definitions.specs.Values.{Text};
ghost use Rattle.definitions.specs.Uris.{begins};
ghost use Rattle.definitions.specs.Resolution.{resolve, merge, remove_dot_segments, up_to_last_slash};

use crate::dots::{begins, remove_dot_segments};
use crate::parts::Parts;
use crate::resolved_parts::ResolvedParts;
use crate::splitting::last_slash;
use std::alloc::{AllocError, Global};

/// The parts of the reference, resolved against the base (RFC 3986, section 5.2.2). The only error is want of memory.
pub fn resolve<'a>(
    alloc: Global,
    base: &Parts<'a>,
    reference: &Parts<'a>,
) -> Result<ResolvedParts<'a>, AllocError>
    ensures { IfOk result (λ p. p ≡ resolve base.now reference.now) }
{
    if reference.scheme.is_some() {
        let path = remove_dot_segments(alloc, reference.path)?;
        return Ok(ResolvedParts {
            scheme: reference.scheme,
            authority: reference.authority,
            path,
            query: reference.query,
            fragment: reference.fragment,
        });
    }
    if reference.authority.is_some() {
        let path = remove_dot_segments(alloc, reference.path)?;
        return Ok(ResolvedParts {
            scheme: base.scheme,
            authority: reference.authority,
            path,
            query: reference.query,
            fragment: reference.fragment,
        });
    }
    if reference.path.is_empty() {
        return Ok(of_base(alloc, base, reference)?);
    }
    let path = rooted_path(alloc, base, reference.path)?;
    Ok(ResolvedParts {
        scheme: base.scheme,
        authority: base.authority,
        path,
        query: reference.query,
        fragment: reference.fragment,
    })
}

// The base's parts, with the reference's fragment, and with its query where it has one.
fn of_base<'a>(
    alloc: Global,
    base: &Parts<'a>,
    reference: &Parts<'a>,
) -> Result<ResolvedParts<'a>, AllocError>
    ensures { IfOk result (λ p. p
        ≡ record base.now {
          query =
              (if is_some reference.now.query then reference.now.query else base.now.query);
          fragment =
              reference.now.fragment;
        }) }
{
    let path = String::from_str(alloc, base.path)?;
    Ok(ResolvedParts {
        scheme: base.scheme,
        authority: base.authority,
        path,
        query: reference.query.or(base.query),
        fragment: reference.fragment,
    })
}

// The path without its dot segments, where it begins with a `/`, and otherwise the path that it makes with the base's.
fn rooted_path(alloc: Global, base: &Parts, path: &str) -> Result<String, AllocError>
    ensures { IfOk result (λ s. string_bytes s
        ≡ (if begins path.now (codes "/") then remove_dot_segments path.now else remove_dot_segments
        (merge base.now path.now))) }
{
    if begins(path, "/") {
        return remove_dot_segments(alloc, path);
    }
    let mut merged = String::from_str(alloc, directory(base))?;
    merged.push_str(path)?;
    remove_dot_segments(alloc, merged.as_str())
}

// What of the base stands before a path that does not begin with a `/` (section 5.2.3).
fn directory<'a>(base: &Parts<'a>) -> &'a str
    ensures { (path : Text) → result.now ++ path ≡ merge base.now path }
{
    if base.authority.is_some() && base.path.is_empty() {
        return "/";
    }
    up_to_last_slash(base.path)
}

fn up_to_last_slash(path: &str) -> &str
    ensures { result.now ≡ up_to_last_slash path.now }
{
    match last_slash(path) {
        Some(at) => &path[..at + 1],
        None => "",
    }
}
