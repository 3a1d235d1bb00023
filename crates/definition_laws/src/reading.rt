//! The values that are read (RFC 8259).

ghost use Rattle.definition_laws.specs.Reading.{ReadValuesAreWellFormed, ReadArraysAreShort};

/// A value that is read has whole numbers of 64 bits, texts in UTF-8, and each object's names in byte order, each once.
pub fn read_values_are_well_formed()
    ensures { ReadValuesAreWellFormed }
{}

/// No array in a value that is read has more elements than the text has bytes.
pub fn read_arrays_are_short()
    ensures { ReadArraysAreShort }
{}
