//! Members of an object that are numbers or arrays.

ghost use Rattle.std.specs.Prelude.{◌≡◌, ◌^◌, map, option_and_then, option_map};
ghost use Rattle.definitions.specs.Tenants.{number_below};
ghost use Rattle.definitions.specs.Values.{get};
ghost use Rattle.json_doc.specs.Docs.{value};
ghost use Rattle.json_doc.specs.Kinds.{as_elements};

use json_doc::Doc;

pub(crate) fn array_at<'a>(object: &'a Doc, name: &str) -> Option<&'a [Doc]>
    ensures { option_map (λ items. map value items.now) result
        ≡ option_and_then as_elements (get name.now (value object.now)) }
{
    object.get(name)?.as_list()
}

// A number from 0 to 2^64 - 1.
pub(crate) fn natural_at(object: &Doc, name: &str) -> Option<u64>
    ensures { result ≡ option_and_then (number_below (2 ^ 64)) (get name.now (value object.now)) }
{
    natural_of(object.get(name)?)
}

// A number from 0 to 2^32 - 1.
pub(crate) fn small_natural_at(object: &Doc, name: &str) -> Option<u32>
    ensures { result ≡ option_and_then (number_below (2 ^ 32)) (get name.now (value object.now)) }
{
    small_natural_of(object.get(name)?)
}

fn natural_of(number: &Doc) -> Option<u64>
    ensures { result ≡ number_below (2 ^ 64) (value number.now) }
{
    match number {
        Doc::Int(whole) => whole.as_u64(),
        _ => None,
    }
}

fn small_natural_of(number: &Doc) -> Option<u32>
    ensures { result ≡ number_below (2 ^ 32) (value number.now) }
{
    match natural_of(number) {
        Some(natural) => u32::try_from(natural).ok(),
        None => None,
    }
}
