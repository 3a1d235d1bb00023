//! The schemas that pointers lead to (JSON Schema 2020-12 Core, section 8.2.3).

ghost use Rattle.std.specs.Prelude.{◌≡◌, ◌∷◌, ◌++◌, IfOk, Contains, map, option_map, string_bytes};
ghost use Rattle.definitions.specs.Schemas.{below};
ghost use Rattle.definitions.specs.Lists.{option_list};
ghost use Rattle.json_doc.specs.Docs.{value};
ghost use Rattle.locations.specs.Steps.{tokens};
ghost use Rattle.schema_scan.specs.DescentViews.{tokens_taken};
ghost use Rattle.schema_scan.specs.Descents.{pointed_schema};
ghost use Rattle.schema_scan.specs.Locateds.{located_view};

use crate::compiled::Compiled;
use crate::located::Located;
use locations::Step;
use std::alloc::{AllocError, Global};

mod descending;

use descending::{Descent, descend};

impl Compiled {
    ghost use Rattle.schema_scan.specs.CompiledDocuments.{compiled_schemas};

    /// The schema that a pointer with these tokens leads to from one of the document's (JSON Schema 2020-12 Core, section
    /// 8.2.3). It goes by the places of subschemas alone: a pointer that leads to anything else names nothing. A schema with
    /// an `$id` opens a resource, and the steps begin anew there.
    ///
    /// The time grows with the pointer's tokens and with the members of each object on the way.
    pub(crate) fn at_pointer<'a>(
        &'a self,
        alloc: Global,
        from: Located<'a>,
        tokens: &[String],
    ) -> Result<Option<Located<'a>>, AllocError>
        requires { Contains (compiled_schemas self.now) (located_view from) }
        ensures { IfOk result
            (λ t. option_map located_view t
            ≡ pointed_schema (map string_bytes tokens.now) (located_view from.entry)) }
    {
        let mut here = from;
        let mut left = tokens;
        while let Some((keyword, rest)) = left.split_first() {
            let Some(descent) = descend(here.schema, keyword.as_str(), rest) else {
                return Ok(None);
            };
            left = descent.rest;
            here = self.below(alloc, here, descent)?;
        }
        Ok(Some(here))
    }

    // The schema at the end of a step: where it has an `$id`, this opens a resource, and its steps begin anew.
    fn below<'a>(
        &'a self,
        alloc: Global,
        around: Located<'a>,
        descent: Descent<'a, '_>,
    ) -> Result<Located<'a>, AllocError>
        requires { Contains (compiled_schemas self.now)
            (below (located_view around) (tokens_taken descent) (value descent.schema.now)) }
        ensures { IfOk result
            (λ l. located_view l ≡ below (located_view around.entry)
            (tokens_taken descent.entry) (value descent.entry.schema.now)) }
    {
        match descent.schema.text_at("$id") {
            Some(id) => match self.resource_opened(alloc, around.resource, id)? {
                Some(resource) => Ok(Located {
                    resource,
                    steps: Vec::new(alloc),
                    schema: descent.schema,
                }),
                None => unreachable!(),
            },
            None => Ok(Located {
                resource: around.resource,
                steps: with_steps(around.steps, descent.keyword, descent.step)?,
                schema: descent.schema,
            }),
        }
    }
}

// These steps, then the one to the keyword, and then the one to a place in its value, if there is one.
fn with_steps<'a>(
    steps: Vec<Step<'a>>,
    keyword: &'a str,
    step: Option<Step<'a>>,
) -> Result<Vec<Step<'a>>, AllocError>
    ensures { IfOk result (λ s. tokens s.items
        ≡ tokens steps.entry.items ++ keyword.now ∷ tokens (option_list step.entry)) }
{
    let mut steps = steps;
    steps.push(Step::Name(keyword))?;
    if let Some(step) = step {
        steps.push(step)?;
    }
    Ok(steps)
}
