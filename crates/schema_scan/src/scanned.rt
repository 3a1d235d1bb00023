//! Documents that were scanned.

ghost use Rattle.std.specs.Prelude.{◌≡◌, [], None, map, string_bytes};
ghost use Rattle.definitions.specs.Scanning.{scan_fault};
ghost use Rattle.definitions.specs.Searches.{patterns};
ghost use Rattle.json_doc.specs.Docs.{value};
ghost use Rattle.schema_table.specs.Gathering.{IsGathered, IsTableOf};
ghost use Rattle.schema_table.specs.Spots.{spots};

use json_doc::Doc;
use schema_table::{Gathered, SchemaTable};

/// A schema document that was scanned, with the base that it stands under: the scan found no fault.
///
/// Contracts see the base's text by `scanned_base`, and the document's value by `scanned_value`.
#[derive(Debug, Drop)]
pub struct Scanned<'a> {
    base: String,
    document: &'a Doc,
    gathered: Gathered<'a>,
    ghost faultless: { scan_fault (string_bytes base) (value document.now) ≡ None },
    ghost of_document: { IsGathered gathered (spots [] 0 (string_bytes base) (value document.now)) },
}

impl<'a> Scanned<'a> {
    ghost use Rattle.schema_scan.specs.Scans.{scanned_base, scanned_value};

    #[tactic(auto, unfolding(crate::specs::Scans::scanned_base, crate::specs::Scans::scanned_value))]
    pub(crate) fn new(base: String, document: &'a Doc, gathered: Gathered<'a>) -> Scanned<'a>
        requires faultless { scan_fault (string_bytes base) (value document.now) ≡ None }
        requires of_document { IsGathered gathered
            (spots [] 0 (string_bytes base) (value document.now)) }
        ensures base { scanned_base result ≡ string_bytes base }
        ensures value { scanned_value result ≡ value document.now }
    {
        Scanned {
            base,
            document,
            gathered,
        }
    }

    /// The text of the base that the document stands under.
    #[tactic(auto, unfolding(crate::specs::Scans::scanned_base))]
    pub fn base(&self) -> &str
        ensures { result.now ≡ scanned_base self.now }
    {
        self.base.as_str()
    }

    /// The document.
    #[tactic(auto, unfolding(crate::specs::Scans::scanned_base, crate::specs::Scans::scanned_value))]
    pub fn document(&self) -> &'a Doc
        ensures value { value result.now ≡ scanned_value self.now }
        ensures faultless { scan_fault (scanned_base self.now) (scanned_value self.now) ≡ None }
    {
        self.document
    }

    /// The texts of the document's patterns, in the order of a walk; some may stand more than once.
    pub(crate) fn patterns(&self) -> &[&'a str]
        ensures { map (λ t. t.now) result.now ≡ patterns (scanned_value self.now) }
    {
        self.gathered.patterns.as_slice()
    }

    /// The base, and the table of the document's schemas.
    pub(crate) fn into_table(self) -> (String, SchemaTable)
        ensures base { string_bytes result.0 ≡ scanned_base self.entry }
        ensures table { IsTableOf result.1
            (spots [] 0 (scanned_base self.entry) (scanned_value self.entry)) }
    {
        (self.base, self.gathered.table)
    }
}
