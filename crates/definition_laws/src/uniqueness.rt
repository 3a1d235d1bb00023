//! Arrays whose elements are unique (JSON Schema 2020-12 Validation, 6.4.3).

ghost use Rattle.definition_laws.specs.Uniqueness.{SortedRepeatsAreNeighbours};

/// A list of values has two that are the same exactly where, sorted by an order whose equality is theirs, some two
/// neighbours are the same.
pub fn sorted_repeats_are_neighbours()
    ensures { SortedRepeatsAreNeighbours }
{}
