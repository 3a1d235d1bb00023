//! References without a target, and the least of them.

ghost use Rattle.definition_laws.specs.Linking.{LeastIsLeast, NoTextsHaveNoLeast, MissingNameNothing, LinkedNameAll};

/// The least of some texts is one of them, and none of them comes before it in byte order.
pub fn least_is_least()
    ensures { LeastIsLeast }
{}

/// There is no least text exactly where there are no texts.
pub fn no_texts_have_no_least()
    ensures { NoTextsHaveNoLeast }
{}

/// What is missing of some documents is exactly what one of them refers to and no schema of theirs is named by.
pub fn missing_name_nothing()
    ensures { MissingNameNothing }
{}

/// There is no least missing reference exactly where each reference of each document names a schema.
pub fn linked_name_all()
    ensures { LinkedNameAll }
{}
