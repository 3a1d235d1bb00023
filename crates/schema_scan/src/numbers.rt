//! Texts and ways by number.

ghost use Rattle.std.specs.Prelude.{◌≡◌, map, option_map, slice_get, string_bytes};
ghost use Rattle.locations.specs.Ways.{owned_hops};

use locations::OwnedWay;

/// The text of this number.
pub(crate) fn numbered(texts: &[String], number: usize) -> Option<&str>
    ensures { option_map (λ t. t.now) result ≡ slice_get (map string_bytes texts.now) number }
{
    Some(texts.get(number)?.as_str())
}

/// The way of this number.
pub(crate) fn way_of(ways: &[OwnedWay], number: usize) -> Option<&OwnedWay>
    ensures { option_map (λ w. owned_hops w.now) result
        ≡ slice_get (map owned_hops ways.now) number }
{
    ways.get(number)
}
