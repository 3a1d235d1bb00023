//! What is kept of the schemas of a document.

ghost use Rattle.std.specs.Prelude.{◌≡◌, [], ◌∷◌, ◌++◌, IfOk, OnOk, codes, map, option_map, string_bytes};
ghost use Rattle.definitions.specs.Lists.{option_list};
ghost use Rattle.definitions.specs.Resolution.{target_uri};
ghost use Rattle.definitions.specs.Uris.{without_fragment};
ghost use Rattle.definitions.specs.Values.{text_at};
ghost use Rattle.json_doc.specs.Docs.{value};
ghost use Rattle.locations.specs.Hops.{step_hops};
ghost use Rattle.schema_table.specs.Openings.{IsReadInside};
ghost use Rattle.schema_table.specs.Spots.{spot_in};
ghost use Rattle.locations.specs.Ways.{owned_hops};
ghost use Rattle.schema_table.specs.Gathering.{anchor_mark, identifier_at, marks, plain_name, reference_under, references_at, text_under, texts_at};

use crate::absolute_references::AbsoluteReferences;
use crate::anchors::Anchor;
use crate::resources::Opened;
use crate::text_room::TextRoom;
use json_doc::Doc;
use locations::{OwnedWay, Step, own};
use std::alloc::{AllocError, Global};

/// What is kept of a document's schemas, each list in the order of the walk.
#[derive(Debug, Drop)]
pub struct SchemaTable {
    /// The URIs of the resources.
    pub uris: Vec<String>,
    /// The ways to their roots.
    pub ways: Vec<OwnedWay>,
    /// The `$id` of each root, or no text.
    pub identifiers: Vec<String>,
    /// The absolute references.
    pub references: Vec<String>,
    /// The references as they stand.
    pub texts: Vec<String>,
    /// The anchors.
    pub anchors: Vec<Anchor>,
    /// What the references, and the `$id`s, are read as.
    pub read: AbsoluteReferences,
    // Room for more texts.
    room: TextRoom,
}

impl SchemaTable {
    ghost use Rattle.schema_table.specs.Gathering.{Extends, IsTableOf, table_uris, table_ways, table_identifiers, table_references, table_texts, table_marks};

    /// Nothing yet. This takes no memory.
    #[tactic(auto, unfolding(crate::specs::Gathering::table_uris, crate::specs::Gathering::table_ways, crate::specs::Gathering::table_identifiers, crate::specs::Gathering::table_references, crate::specs::Gathering::table_texts, crate::specs::Gathering::table_marks))]
    pub(crate) fn new(alloc: Global) -> SchemaTable
        ensures { IsTableOf result [] }
    {
        SchemaTable {
            uris: Vec::new(alloc),
            ways: Vec::new(alloc),
            identifiers: Vec::new(alloc),
            references: Vec::new(alloc),
            texts: Vec::new(alloc),
            anchors: Vec::new(alloc),
            read: AbsoluteReferences::new(alloc),
            room: TextRoom::new(),
        }
    }

    /// The URI of the resource that a schema opens inside the resource around it. What its `$id` is read as is kept.
    #[tactic(auto, unfolding(crate::specs::Gathering::table_uris, crate::specs::Gathering::table_ways, crate::specs::Gathering::table_identifiers, crate::specs::Gathering::table_references, crate::specs::Gathering::table_texts, crate::specs::Gathering::table_marks))]
    pub(crate) fn open(
        &mut self,
        alloc: Global,
        around: &str,
        opened: Opened<'_>,
    ) -> Result<String, AllocError>
        requires { IsReadInside around.now opened }
        ensures uri { IfOk result
            (λ uri. string_bytes uri ≡ without_fragment (target_uri around.now opened.entry.id.now)) }
        ensures extends { OnOk result (Extends self.old self.new []) }
    {
        self.room.take(1, opened.named.uri.len())?;
        let uri = String::from_str(alloc, opened.named.uri.as_str())?;
        self.read.insert(alloc, around, opened.id, opened.named)?;
        Ok(uri)
    }

    /// Adds a schema that stands at the end of this way, in the resource of this URI, whose root is `start` steps along
    /// the way.
    pub(crate) fn add(
        &mut self,
        alloc: Global,
        uri: &str,
        start: usize,
        way: &[Step<'_>],
        schema: &Doc,
    ) -> Result<(), AllocError>
        ensures { OnOk result (Extends self.old self.new
            (spot_in (step_hops way.now) start uri.now (value schema.now) ∷ [])) }
    {
        if way.len() <= start {
            self.room.take(2, uri.len())?;
            self.room.take_way(way)?;
            push_root(alloc, &mut self.uris, &mut self.ways, uri, way)?;
            push_identifier(alloc, &mut self.identifiers, schema)?;
        }
        push_references(
            alloc,
            &mut self.references,
            &mut self.texts,
            &mut self.read,
            &mut self.room,
            uri,
            schema,
        )?;
        push_anchors(
            alloc,
            &mut self.anchors,
            &mut self.room,
            uri,
            start,
            way,
            schema,
        )?;
        Ok(())
    }
}

// Appends a root's URI, and the way to it.
fn push_root(
    alloc: Global,
    uris: &mut Vec<String>,
    ways: &mut Vec<OwnedWay>,
    uri: &str,
    way: &[Step<'_>],
) -> Result<(), AllocError>
    ensures uris { OnOk result
        (map string_bytes uris.new.items ≡ map string_bytes uris.old.items ++ uri.now ∷ []) }
    ensures ways { OnOk result
        (map owned_hops ways.new.items
        ≡ map owned_hops ways.old.items ++ step_hops way.now ∷ []) }
{
    uris.push(String::from_str(alloc, uri)?)?;
    ways.push(own(alloc, way)?)?;
    Ok(())
}

// Appends a root's `$id`, or no text.
#[tactic(auto, unfolding(crate::specs::Gathering::identifier_at))]
fn push_identifier(
    alloc: Global,
    identifiers: &mut Vec<String>,
    schema: &Doc,
) -> Result<(), AllocError>
    ensures { OnOk result (map string_bytes identifiers.new.items
        ≡ map string_bytes identifiers.old.items ++ identifier_at (value schema.now) ∷ []) }
{
    let identifier = schema.text_at("$id").unwrap_or("");
    identifiers.push(String::from_str(alloc, identifier)?)?;
    Ok(())
}

// Appends the references of a schema, absolute inside this base and as they stand.
#[tactic(auto, unfolding(crate::specs::Gathering::references_at, crate::specs::Gathering::texts_at))]
fn push_references(
    alloc: Global,
    references: &mut Vec<String>,
    texts: &mut Vec<String>,
    read: &mut AbsoluteReferences,
    room: &mut TextRoom,
    base: &str,
    schema: &Doc,
) -> Result<(), AllocError>
    ensures references { OnOk result (map string_bytes references.new.items
        ≡ map string_bytes references.old.items ++ references_at base.now (value schema.now)) }
    ensures texts { OnOk result (map string_bytes texts.new.items
        ≡ map string_bytes texts.old.items ++ texts_at (value schema.now)) }
{
    let reference = schema.text_at("$ref");
    let dynamic = schema.text_at("$dynamicRef");
    push_reference(alloc, references, texts, read, room, base, reference)?;
    push_reference(alloc, references, texts, read, room, base, dynamic)
}

// Appends a reference, if there is one.
fn push_reference(
    alloc: Global,
    references: &mut Vec<String>,
    texts: &mut Vec<String>,
    read: &mut AbsoluteReferences,
    room: &mut TextRoom,
    base: &str,
    reference: Option<&str>,
) -> Result<(), AllocError>
    ensures references { OnOk result (map string_bytes references.new.items
        ≡ map string_bytes references.old.items
        ++ option_list (option_map (λ t. target_uri base.now t.now) reference.entry)) }
    ensures texts { OnOk result (map string_bytes texts.new.items
        ≡ map string_bytes texts.old.items ++ option_list (option_map (λ t. t.now) reference.entry)) }
{
    if let Some(reference) = reference {
        let absolute = read.resolve(alloc, base, reference)?;
        room.take(2, absolute.len())?;
        references.push(absolute)?;
        texts.push(String::from_str(alloc, reference)?)?;
    }
    Ok(())
}

// Appends the anchors of a schema where it stands.
#[tactic(auto, unfolding(crate::specs::Gathering::marks))]
fn push_anchors(
    alloc: Global,
    anchors: &mut Vec<Anchor>,
    room: &mut TextRoom,
    uri: &str,
    start: usize,
    way: &[Step<'_>],
    schema: &Doc,
) -> Result<(), AllocError>
    ensures { OnOk result (map anchor_mark anchors.new.items
        ≡ map anchor_mark anchors.old.items
        ++ marks (spot_in (step_hops way.now) start uri.now (value schema.now))) }
{
    if let Some(name) = plain_anchor(schema) {
        room.take(1, uri.len())?;
        room.take_way(way)?;
        anchors.push(anchor(alloc, name, false, uri, start, way)?)?;
    }
    if let Some(name) = schema.text_at("$dynamicAnchor") {
        room.take(1, uri.len())?;
        room.take_way(way)?;
        anchors.push(anchor(alloc, name, true, uri, start, way)?)?;
    }
    Ok(())
}

// The name under `$anchor`, unless it stands under `$dynamicAnchor` too.
fn plain_anchor(schema: &Doc) -> Option<&str>
    ensures { option_map (λ t. t.now) result
        ≡ plain_name (text_at (codes "$anchor") (value schema.now))
        (text_at (codes "$dynamicAnchor") (value schema.now)) }
{
    let name = schema.text_at("$anchor")?;
    match schema.text_at("$dynamicAnchor") {
        Some(other) => { if name == other { None } else { Some(name) } }
        None => Some(name),
    }
}

fn anchor(
    alloc: Global,
    name: &str,
    dynamic: bool,
    uri: &str,
    start: usize,
    way: &[Step<'_>],
) -> Result<Anchor, AllocError>
    ensures { IfOk result (λ a. anchor_mark a
        ≡ record {
          name = name.now;
          dynamic = dynamic;
          resource = uri.now;
          start = start;
          way =
              step_hops way.now;
        }) }
{
    Ok(Anchor {
        name: String::from_str(alloc, name)?,
        dynamic,
        resource: String::from_str(alloc, uri)?,
        start,
        way: own(alloc, way)?,
    })
}
