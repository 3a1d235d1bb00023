//! The errors that no other error explains.

ghost use Rattle.std.specs.Prelude.{◌≡◌, IfOk, IfErr, map};
ghost use Rattle.plain_reports.specs.ErrorUnits.{causes, first_explains, goes_on_from, is_explained_by};
ghost use Rattle.plain_reports.specs.UnitViews.{unit_view};

use crate::units::ErrorUnit;
use json_doc::Fault;
use std::alloc::Global;

/// The causes of an invalid instance: of the errors of an output, in its order, those that no other explains. An error is
/// explained by one at or below its keyword's location and at or below its instance location. An output has these right
/// behind it. The only error is want of memory.
pub fn causes_of<'a>(alloc: Global, units: &[ErrorUnit<'a>]) -> Result<Vec<ErrorUnit<'a>>, Fault>
    ensures ok { IfOk result (λ us. map unit_view us.items ≡ causes (map unit_view units.now)) }
    ensures err { IfErr result (λ f. f ≡ Fault.NoRoom) }
{
    let mut found = Vec::new(alloc);
    let mut left = units;
    while let [unit, rest @ ..] = left {
        if !is_explained(unit, rest) {
            found.push(*unit)?;
        }
        left = rest;
    }
    Ok(found)
}

// Whether the first of those that follow the unit explains it.
fn is_explained(unit: &ErrorUnit<'_>, rest: &[ErrorUnit<'_>]) -> bool
    ensures { result ≡ first_explains (unit_view unit.now) (map unit_view rest.now) }
{
    match rest {
        [] => false,
        [next, ..] => is_explained_by(unit, next),
    }
}

fn is_explained_by(unit: &ErrorUnit<'_>, next: &ErrorUnit<'_>) -> bool
    ensures { result ≡ is_explained_by (unit_view unit.now) (unit_view next.now) }
{
    goes_on_from(unit.keyword_location, next.keyword_location)
        && goes_on_from(unit.instance_location, next.instance_location)
}

// Whether the second pointer is the first, or goes on from it.
fn goes_on_from(above: &str, pointer: &str) -> bool
    ensures { result ≡ goes_on_from above.now pointer.now }
{
    let above = above.as_bytes();
    let pointer = pointer.as_bytes();
    pointer.starts_with(above) && (pointer.len() == above.len() || pointer[above.len()] == b'/')
}
