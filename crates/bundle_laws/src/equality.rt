//! Equality of values (JSON Schema 2020-12 Core, 4.2.2).

ghost use Rattle.bundle_laws.specs.Equality.{EqualValuesAreOne};

/// Values that are the same by content are one value, so that nothing tells them apart.
pub fn equal_values_are_one()
    ensures { EqualValuesAreOne }
{}
