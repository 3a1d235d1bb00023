//! A document's row.

/// A document's row as it is read.
#[derive(Debug, Drop)]
pub struct DocumentRow {
    /// The digest of its tenant's key.
    pub tenant: String,
    /// Its canonical URI.
    pub uri: String,
    /// The base form of the URI that it was put under.
    pub base: String,
    /// The compact text of its value.
    pub text: String,
}

/// A document's row as it is put.
#[derive(Clone, Copy, Debug)]
pub struct RowRef<'a> {
    /// The digest of its tenant's key.
    pub tenant: &'a str,
    /// Its canonical URI.
    pub uri: &'a str,
    /// The base form of the URI that it was put under.
    pub base: &'a str,
    /// The compact text of its value.
    pub text: &'a str,
}
