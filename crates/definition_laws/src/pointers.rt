//! JSON Pointers and their texts (RFC 6901).

ghost use Rattle.definition_laws.specs.Pointers.{PointersAreReadBack, ReadPointersHaveOneText};

/// The text of a pointer is read back as its tokens (sections 3 and 4).
pub fn pointers_are_read_back()
    ensures { PointersAreReadBack }
{}

/// A text that is read as a pointer is that pointer's text: no two texts are read as one pointer (sections 3 and 4).
pub fn read_pointers_have_one_text()
    ensures { ReadPointersHaveOneText }
{}
