//! Documents that a bundle is made of.

use json_doc::Doc;

/// A document that goes into a bundle, by its canonical URI.
///
/// Contracts see it by `constituent`.
#[derive(Debug, Drop)]
pub(crate) struct Constituent<'a> {
    pub(crate) uri: &'a str,
    pub(crate) value: &'a Doc,
}
