//! Keys that stand twice.

ghost use Rattle.std.specs.Prelude.{◌≡◌, IfOk};
ghost use Rattle.std.specs.Ordering.{eq_by_cmp};
ghost use Rattle.definitions.specs.Lists.{has_repeat};

use std::alloc::{AllocError, Global};
use std::collections::BTreeSet;

/// Whether some two of the keys are the same.
pub(crate) fn has_repeat<K: Ord + Copy + Drop>(
    alloc: Global,
    keys: &[K],
) -> Result<bool, AllocError>
    ensures { IfOk result (λ b. b ≡ has_repeat (eq_by_cmp K.cmp) keys.now) }
{
    let mut seen = BTreeSet::new(alloc);
    for key in keys {
        if !seen.insert(*key)? {
            return Ok(true);
        }
    }
    Ok(false)
}
