//! Documents that can be evaluated.

ghost use Rattle.std.specs.Prelude.{◌≡◌, ◌||◌, [], true, Contains, None, IfOk, IfSome, OnOk, Some, codes, find, is_some, map, option_and_then, option_map, slice_get, string_bytes};
ghost use Rattle.std.specs.List.{list_all, position_from};
ghost use Rattle.definitions.specs.Patterns.{regular_search};
ghost use Rattle.definitions.specs.Reach.{holds_resource, references_in};
ghost use Rattle.definitions.specs.Resolution.{target_uri};
ghost use Rattle.definitions.specs.Scanning.{resource_uris, scan_fault};
ghost use Rattle.definitions.specs.Searches.{is_regular, patterns};
ghost use Rattle.definitions.specs.Targets.{resource_root, target_by, schema_at_pointer, schema_with_anchor, schema_with_dynamic_anchor};
ghost use Rattle.definitions.specs.Uris.{without_fragment};
ghost use Rattle.definitions.specs.Schemas.{Schema};
ghost use Rattle.definitions.specs.Values.{Text, is_well_formed, text_at};
ghost use Rattle.json_doc.specs.Docs.{value};
ghost use Rattle.schema_scan.specs.DynamicResources.{has_resource};
ghost use Rattle.schema_scan.specs.Locateds.{located_view};
ghost use Rattle.schema_scan.specs.PatternTables.{holds_pattern};
ghost use Rattle.schema_scan.specs.ReferenceTexts.{HasReference};
ghost use Rattle.schema_table.specs.Gathering.{IsTableOf, anchor_mark, table_identifiers, table_marks, table_texts, table_uris};
ghost use Rattle.schema_table.specs.Lookups.{has_mark};
ghost use Rattle.schema_table.specs.PairNumbers.{pair_number};
ghost use Rattle.schema_table.specs.Spots.{spots};
ghost use Rattle.text_numbers.specs.TextNumbers.{AreNumbers};
ghost use Rattle.uri_ref.specs.AbsoluteReferences.{IsReadAs};
ghost use Rattle.uri_ref.specs.FragmentViews.{fragment_view};

use crate::anchor_numbers::{anchor_numbers_of, find_anchor};
use crate::dynamic_resources::add_resources;
use crate::located::{Located, root_along, schema_of_anchor};
use crate::numbers::{numbered, way_of};
use crate::pattern_table::PatternTable;
use json_doc::{Doc, copy};
use json_pointer::Pointer;
use patterns::Pattern;
use schema_table::{Anchor, SchemaTable};
use std::alloc::{AllocError, Global};
use std::collections::{BTreeMap, BTreeSet};
use text_numbers::TextNumbers;
use uri_ref::{AbsoluteReference, FragmentKind, opened_uri};

/// A schema document that can be evaluated: the scan found no fault in it, and its patterns are built. It has the table of its
/// schemas, and finds its resources, anchors and references by their texts.
///
/// Contracts see it as one pair: the text of the base that it stands under, by `compiled_base`, and its value, by
/// `compiled_value`.
#[derive(Drop)]
pub struct Compiled {
    base: String,
    document: Doc,
    table: SchemaTable,
    pattern_table: PatternTable,
    /// The number of each anchor in the table, by the URI of its resource and by its name.
    anchor_numbers: BTreeMap<String, BTreeMap<String, usize>>,
    /// The numbers of the resources' URIs and `$id`s, and of the references' texts, of those that are known to be there.
    uri_numbers: TextNumbers,
    identifier_numbers: TextNumbers,
    text_numbers: TextNumbers,
    ghost faultless: { scan_fault (string_bytes base) (value document) ≡ None },
    ghost well_formed: { is_well_formed (value document) ≡ true },
    ghost regular: { is_regular regular_search (value document) ≡ true },
    ghost built: { list_all (holds_pattern pattern_table) (patterns (value document)) ≡ true },
    ghost of_document: { IsTableOf table (spots [] 0 (string_bytes base) (value document)) },
    ghost by_uri: { AreNumbers uri_numbers (table_uris table) },
    ghost by_identifier: { AreNumbers identifier_numbers (table_identifiers table) },
    ghost by_text: { AreNumbers text_numbers (table_texts table) },
    ghost by_anchor: { (uri name : Text) → pair_number anchor_numbers uri name ≡ position_from (has_mark uri name) 0 (table_marks table) },
}

impl Compiled {
    ghost use Rattle.schema_scan.specs.CompiledDocuments.{compiled_base, compiled_identifiers, compiled_patterns, compiled_value, compiled_schemas, compiled_texts, compiled_view};

    /// A copy of the document, which stands under this base, with its table and its patterns.
    pub(crate) fn of(
        alloc: Global,
        base: String,
        document: &Doc,
        table: SchemaTable,
        pattern_table: PatternTable,
    ) -> Result<Compiled, AllocError>
        requires faultless { scan_fault (string_bytes base) (value document.now) ≡ None }
        requires regular { is_regular regular_search (value document.now) ≡ true }
        requires built { list_all (holds_pattern pattern_table) (patterns (value document.now))
            ≡ true }
        requires of_document { IsTableOf table
            (spots [] 0 (string_bytes base) (value document.now)) }
        ensures { IfOk result
            (λ d. (compiled_base d ≡ string_bytes base) × (compiled_value d ≡ value document.now)) }
    {
        let anchor_numbers = anchor_numbers_of(alloc, &table.anchors)?;
        let uri_numbers = TextNumbers::of(alloc, &table.uris)?;
        let identifier_numbers = TextNumbers::of(alloc, &table.identifiers)?;
        let text_numbers = TextNumbers::of(alloc, &table.texts)?;
        Ok(Compiled {
            base,
            document: copy(alloc, document)?,
            table,
            pattern_table,
            anchor_numbers,
            uri_numbers,
            identifier_numbers,
            text_numbers,
        })
    }

    /// The text of the base that the document stands under.
    #[tactic(auto, unfolding(crate::specs::CompiledDocuments::compiled_base))]
    pub fn base(&self) -> &str
        ensures { result.now ≡ compiled_base self.now }
    {
        self.base.as_str()
    }

    /// The document.
    #[tactic(auto, unfolding(crate::specs::CompiledDocuments::compiled_base, crate::specs::CompiledDocuments::compiled_value))]
    pub fn document(&self) -> &Doc
        ensures value { value result.now ≡ compiled_value self.now }
        ensures faultless { scan_fault (compiled_base self.now) (compiled_value self.now) ≡ None }
        ensures regular { is_regular regular_search (compiled_value self.now) ≡ true }
    {
        &self.document
    }

    /// The document's canonical URI: that of its root's resource.
    pub(crate) fn canonical(&self) -> &str
        ensures { result.now ≡ (compiled_view self.now).canonical }
    {
        match numbered(&self.table.uris, 0) {
            Some(uri) => uri,
            None => "",
        }
    }

    /// The URIs of its resources, in the order of a walk.
    pub fn resource_uris(&self) -> &[String]
        ensures { map string_bytes result.now ≡ resource_uris (compiled_schemas self.now) }
    {
        self.table.uris.as_slice()
    }

    /// The `$id` of each resource's root, or no text where it has none, in the order of [`resource_uris`](Self::resource_uris).
    #[tactic(auto, unfolding(crate::specs::CompiledDocuments::compiled_identifiers, schema_table::specs::Gathering::table_identifiers))]
    pub fn identifiers(&self) -> &[String]
        ensures { map string_bytes result.now ≡ compiled_identifiers self.now }
    {
        self.table.identifiers.as_slice()
    }

    /// The absolute references of its schemas, in the order of a walk; some may stand more than once.
    pub fn references(&self) -> &[String]
        ensures { map string_bytes result.now ≡ references_in (compiled_view self.now) }
    {
        self.table.references.as_slice()
    }

    /// The URI, as the document's own text, where one of its resources has it.
    pub fn resource_uri(&self, uri: &str) -> Option<&str>
        ensures same { IfSome result (λ u. u.now ≡ uri.now) }
        ensures held { is_some result ≡ holds_resource uri.now (compiled_view self.now) }
    {
        match numbered(&self.table.uris, self.resource_number(uri)) {
            Some(known) => { if known == uri { Some(known) } else { None } }
            None => None,
        }
    }

    /// The number of a resource's URI among [`resource_uris`](Self::resource_uris), where one of them is this. It is told by the
    /// bytes in which these differ: of another text it is some number.
    pub fn resource_number(&self, uri: &str) -> usize
        ensures { holds_resource uri.now (compiled_view self.now) ≡ true
            → slice_get (resource_uris (compiled_schemas self.now)) result ≡ Some uri.now }
    {
        self.uri_numbers.number(uri)
    }

    /// The number of a reference's text among those of the document's schemas, where one of them is this. It is told by the
    /// bytes in which these differ: of another text it is some number.
    #[tactic(auto, unfolding(crate::specs::CompiledDocuments::compiled_texts))]
    pub fn reference_number(&self, reference: &str) -> usize
        ensures { (s : Schema) → Contains (compiled_schemas self.now) s
            → HasReference s reference.now
            → slice_get (compiled_texts self.now) result ≡ Some reference.now }
    {
        self.text_numbers.number(reference)
    }

    /// The texts of its schemas' references as they stand, by their numbers.
    #[tactic(auto, unfolding(crate::specs::CompiledDocuments::compiled_texts, schema_table::specs::Gathering::table_texts))]
    pub fn reference_texts(&self) -> &[String]
        ensures { map string_bytes result.now ≡ compiled_texts self.now }
    {
        self.table.texts.as_slice()
    }

    /// The URI of the resource that a schema of the document with this `$id` opens, where the `$id` is told from all others by
    /// the bytes in which they differ. Of an `$id` that no schema has it answers nothing, or some URI.
    pub fn resource_identified(&self, id: &str) -> Option<&str>
        ensures { (s : Schema) → Contains (compiled_schemas self.now) s → s.pointer ≡ []
            → text_at (codes "$id") s.value ≡ Some id.now
            → IfSome result (λ uri. uri.now ≡ s.resource) }
    {
        match self.identifier_numbers.only_number(id) {
            Some(number) => numbered(&self.table.uris, number),
            None => None,
        }
    }

    /// What a reference, or an `$id`, of the document's schemas is read as inside the resource of this URI. It takes no memory.
    /// Of others it answers nothing, and of those whose fragment can't be read.
    pub fn absolute_reference(&self, resource: &str, reference: &str) -> Option<&AbsoluteReference>
        ensures { IfSome result
            (λ r. IsReadAs (target_uri resource.now reference.now) (Some r.now)) }
    {
        self.table.read.get(resource, reference)
    }

    // The URI, as a text of the document, of the resource that a schema opens by this `$id` inside the resource around it
    // (JSON Schema 2020-12 Core, section 8.2.1).
    pub(crate) fn resource_opened(
        &self,
        alloc: Global,
        around: &str,
        id: &str,
    ) -> Result<Option<&str>, AllocError>
        ensures same { IfOk result (λ o. IfSome o
            (λ u. u.now ≡ without_fragment (target_uri around.now id.now))) }
        ensures held { IfOk result (λ o.
            holds_resource (without_fragment (target_uri around.now id.now)) (compiled_view self.now)
            ≡ true → is_some o ≡ true) }
    {
        if let Some(read) = self.absolute_reference(around, id) {
            return Ok(Some(read.uri.as_str()));
        }
        let uri = opened_uri(alloc, around, id)?;
        Ok(self.resource_uri(uri.as_str()))
    }

    /// The root of the resource with this URI.
    pub fn resource_root(&self, alloc: Global, uri: &str) -> Option<Located<'_>>
        ensures { option_map located_view result
            ≡ resource_root (compiled_schemas self.now) uri.now }
    {
        match self.resource_uri(uri) {
            Some(_) => self.numbered_root(alloc, self.resource_number(uri)),
            None => None,
        }
    }

    /// The root of the resource whose URI has this number among [`resource_uris`](Self::resource_uris).
    pub fn numbered_root(&self, alloc: Global, number: usize) -> Option<Located<'_>>
        ensures { option_map located_view result
            ≡ option_and_then (resource_root (compiled_schemas self.now))
            (slice_get (resource_uris (compiled_schemas self.now)) number) }
    {
        match numbered(&self.table.uris, number) {
            Some(resource) => match way_of(&self.table.ways, number) {
                Some(way) => root_along(alloc, resource, way, &self.document),
                None => None,
            },
            None => None,
        }
    }

    /// The schema that the fragment names in the resource with this URI: its root, the schema at a pointer from there, or
    /// the one with this anchor. A pointer that leads to no schema names nothing.
    pub fn target(
        &self,
        alloc: Global,
        uri: &str,
        fragment: &FragmentKind,
    ) -> Result<Option<Located<'_>>, AllocError>
        ensures { IfOk result
            (λ t. option_map located_view t
            ≡ target_by (compiled_schemas self.now) uri.now (fragment_view fragment.now)) }
    {
        match fragment {
            FragmentKind::Empty => Ok(self.resource_root(alloc, uri)),
            FragmentKind::Pointer(pointer) => self.pointed_from(alloc, uri, pointer),
            FragmentKind::Name(name) => self.anchored(alloc, uri, name.as_str()),
        }
    }

    /// The schema with this dynamic anchor in the resource with this URI.
    pub fn dynamically_anchored(
        &self,
        alloc: Global,
        uri: &str,
        name: &str,
    ) -> Result<Option<Located<'_>>, AllocError>
        ensures { IfOk result
            (λ t. option_map located_view t
            ≡ schema_with_dynamic_anchor (compiled_schemas self.now) uri.now name.now) }
    {
        match self.anchor(uri, name) {
            Some(anchor) => {
                if anchor.dynamic {
                    schema_of_anchor(alloc, anchor, &self.document)
                } else {
                    Ok(None)
                }
            }
            None => Ok(None),
        }
    }

    /// Adds the URI of each resource to those of each dynamic anchor's name that it has.
    pub fn add_dynamic_resources(
        &self,
        alloc: Global,
        resources: &mut BTreeMap<String, BTreeSet<String>>,
    ) -> Result<(), AllocError>
        ensures { OnOk result ((uri name : Text)
            → has_resource resources.new uri name
            ≡ (has_resource resources.old uri name
            || is_some (schema_with_dynamic_anchor (compiled_schemas self.now) uri name))) }
    {
        add_resources(alloc, resources, &self.table.anchors)
    }

    // The schema that a pointer leads to from the root of the resource with this URI.
    fn pointed_from(
        &self,
        alloc: Global,
        uri: &str,
        pointer: &Pointer,
    ) -> Result<Option<Located<'_>>, AllocError>
        ensures { IfOk result
            (λ t. option_map located_view t
            ≡ option_and_then (schema_at_pointer pointer.now)
            (resource_root (compiled_schemas self.now) uri.now)) }
    {
        match self.resource_root(alloc, uri) {
            Some(root) => self.at_pointer(alloc, root, pointer.tokens()),
            None => Ok(None),
        }
    }

    // The schema with this anchor in the resource with this URI.
    fn anchored(
        &self,
        alloc: Global,
        uri: &str,
        name: &str,
    ) -> Result<Option<Located<'_>>, AllocError>
        ensures { IfOk result
            (λ t. option_map located_view t
            ≡ schema_with_anchor (compiled_schemas self.now) uri.now name.now) }
    {
        match self.anchor(uri, name) {
            Some(anchor) => schema_of_anchor(alloc, anchor, &self.document),
            None => Ok(None),
        }
    }

    // The anchor of this name in the resource with this URI.
    fn anchor(&self, uri: &str, name: &str) -> Option<&Anchor>
        ensures { option_map (λ a. anchor_mark a.now) result
            ≡ find (has_mark uri.now name.now) (table_marks self.now.table) }
    {
        find_anchor(&self.table.anchors, &self.anchor_numbers, uri, name)
    }

    /// The number of the pattern with this text, where one of the document's schemas has it. It is told by the bytes in which
    /// their texts differ: of another text it is some number.
    pub fn pattern_number(&self, text: &str) -> usize
        ensures { Contains (patterns (compiled_value self.now)) text.now
            → slice_get (compiled_patterns self.now) result ≡ Some text.now }
    {
        self.pattern_table.numbers.number(text)
    }

    /// The pattern of this number.
    #[tactic(auto, unfolding(crate::specs::PatternTables::table_patterns))]
    pub fn numbered_pattern(&self, number: usize) -> Option<&Pattern>
        ensures { option_map (λ p. p.now) result ≡ slice_get (compiled_patterns self.now) number }
    {
        self.pattern_table.patterns.get(number)
    }
}
