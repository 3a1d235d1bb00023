//! What the walk over the schemas of a document gathers.

ghost use Rattle.std.specs.Prelude.{◌≡◌, [], ◌∷◌, IfOk, OnOk, string_bytes};
ghost use Rattle.definitions.specs.Resolution.{target_uri};
ghost use Rattle.definitions.specs.Uris.{without_fragment};
ghost use Rattle.json_doc.specs.Docs.{value};
ghost use Rattle.locations.specs.Hops.{step_hops};
ghost use Rattle.schema_table.specs.Gathering.{IsGathered};
ghost use Rattle.schema_table.specs.Openings.{IsReadInside};
ghost use Rattle.schema_table.specs.Spots.{spot_in};

use crate::pattern_texts::push_patterns;
use crate::resources::Opened;
use crate::table::SchemaTable;
use json_doc::Doc;
use locations::Step;
use std::alloc::{AllocError, Global};

/// What a walk gathers of a document's schemas: the table that is kept of them, and the texts of their patterns, in the order
/// of the walk, each as often as it stands.
#[derive(Debug, Drop)]
pub struct Gathered<'a> {
    pub table: SchemaTable,
    pub patterns: Vec<&'a str>,
}

impl<'a> Gathered<'a> {
    ghost use Rattle.schema_table.specs.Gathering.{Gathers};

    /// Nothing yet. This takes no memory.
    pub(crate) fn new(alloc: Global) -> Gathered<'a>
        ensures { IsGathered result [] }
    {
        Gathered {
            table: SchemaTable::new(alloc),
            patterns: Vec::new(alloc),
        }
    }

    /// The URI of the resource that a schema opens inside the resource around it. What its `$id` is read as is kept.
    pub(crate) fn open(
        &mut self,
        alloc: Global,
        around: &str,
        opened: Opened<'a>,
    ) -> Result<String, AllocError>
        requires { IsReadInside around.now opened }
        ensures uri { IfOk result
            (λ uri. string_bytes uri ≡ without_fragment (target_uri around.now opened.entry.id.now)) }
        ensures gathers { OnOk result (Gathers self.old self.new []) }
    {
        self.table.open(alloc, around, opened)
    }

    /// Adds a schema that stands at the end of this way, in the resource of this URI, whose root is `start` steps along
    /// the way.
    pub(crate) fn add(
        &mut self,
        alloc: Global,
        uri: &str,
        start: usize,
        way: &[Step<'_>],
        schema: &'a Doc,
    ) -> Result<(), AllocError>
        ensures { OnOk result (Gathers self.old self.new
            (spot_in (step_hops way.now) start uri.now (value schema.now) ∷ [])) }
    {
        self.table.add(alloc, uri, start, way, schema)?;
        push_patterns(&mut self.patterns, schema)
    }
}
