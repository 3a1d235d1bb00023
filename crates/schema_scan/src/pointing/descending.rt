//! One step of a pointer, from a schema to one directly below it (JSON Schema 2020-12 Core, section 8.2.3).

ghost use Rattle.std.specs.Prelude.{◌≡◌, ◌≢◌, ◌<◌, ◌^◌, ◌∷◌, ℕ, IfSome, IfNone, option_map, map, decimal, string_bytes};
ghost use Rattle.definitions.specs.Values.{Value};
ghost use Rattle.definitions.specs.Shapes.{schema_list, schema_map};
ghost use Rattle.definitions.specs.Keywords.{keywords, shape_in};
ghost use Rattle.json_doc.specs.Docs.{value, members_value};
ghost use Rattle.json_doc.specs.Members.{member_view, HasNamesInOrder};
ghost use Rattle.schema_scan.specs.Descents.{IsHeld, row, name_of};
ghost use Rattle.schema_scan.specs.DescentViews.{GoesOn};

use json_doc::{Doc, Members};
use keywords::{Shape, shape_named};
use locations::Step;

/// What a pointer's first tokens lead to: the keyword, the place in its value where that is a list or a map, the schema
/// there, and the tokens that are left.
#[derive(Clone, Copy, Debug, Drop)]
pub(crate) struct Descent<'a, 't> {
    pub(crate) keyword: &'a str,
    pub(crate) step: Option<Step<'a>>,
    pub(crate) schema: &'a Doc,
    pub(crate) rest: &'t [String],
}

/// The first step of the pointer with these tokens, from a schema.
pub(crate) fn descend<'a, 't>(
    schema: &'a Doc,
    keyword: &str,
    rest: &'t [String],
) -> Option<Descent<'a, 't>>
    ensures { GoesOn (keyword.now ∷ map string_bytes rest.now) (value schema.now) result }
{
    let (name, member) = named(schema.as_dict()?, keyword)?;
    match shape_named(name) {
        Shape::OneSchema => Some(Descent {
            keyword: name,
            step: None,
            schema: member,
            rest,
        }),
        Shape::SchemaList => descend_into_list(name, member, rest),
        Shape::SchemaMap => descend_into_map(name, member, rest),
        _ => None,
    }
}

// The step into a list of schemas, which is the value of this keyword.
fn descend_into_list<'a, 't>(
    keyword: &'a str,
    list: &'a Doc,
    rest: &'t [String],
) -> Option<Descent<'a, 't>>
    ensures { (v : Value) → IsHeld v keyword.now (value list.now)
        → shape_in keywords keyword.now ≡ schema_list
        → GoesOn (keyword.now ∷ map string_bytes rest.now) v result }
{
    let (token, rest) = rest.split_first()?;
    let schemas = list.as_list()?;
    let index = index_of(token.as_str(), schemas.len())?;
    Some(Descent {
        keyword,
        step: Some(Step::Index(index)),
        schema: &schemas[index],
        rest,
    })
}

// The step into a map of schemas, which is the value of this keyword.
fn descend_into_map<'a, 't>(
    keyword: &'a str,
    object: &'a Doc,
    rest: &'t [String],
) -> Option<Descent<'a, 't>>
    ensures { (v : Value) → IsHeld v keyword.now (value object.now)
        → shape_in keywords keyword.now ≡ schema_map
        → GoesOn (keyword.now ∷ map string_bytes rest.now) v result }
{
    let (token, rest) = rest.split_first()?;
    let (name, schema) = named(object.as_dict()?, token.as_str())?;
    Some(Descent {
        keyword,
        step: Some(Step::Name(name)),
        schema,
        rest,
    })
}

// The member of this name, with its name in the object. The time grows with the logarithm of the number of members.
fn named<'a>(members: &'a Members, name: &str) -> Option<(&'a str, &'a Doc)>
    ensures found { option_map member_view result
        ≡ row name_of name.now (members_value members.now) }
    ensures ordered { HasNamesInOrder (members_value members.now) }
{
    members.get_key_value(name)
}

// The index below this count that the token writes: no zero leads it, unless it is `0`.
fn index_of(token: &str, count: usize) -> Option<usize>
    ensures word { count < 2 ^ 64 }
    ensures some { IfSome result (λ i. (i < count) × (decimal i ≡ token.now)) }
    ensures none { IfNone result ((i : ℕ) → i < count → decimal i ≢ token.now) }
{
    let index: usize = token.parse().ok()?;
    let mut digits = itoa::Buffer::new();
    if index < count && digits.format(index) == token {
        Some(index)
    } else {
        None
    }
}
