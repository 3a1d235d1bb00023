//! The shapes that the values of keywords have (JSON Schema 2020-12 Core, sections 8 to 10; Validation, section 6).

/// The shape that a keyword's value has to have.
#[derive(Clone, Copy, Debug, Drop, PartialEq, Eq)]
pub enum Shape {
    /// Any value (Validation, section 6.1.3).
    AnyValue,
    /// `true` or `false` (Validation, section 6.4.3).
    Truth,
    /// A number, all of which are whole (Validation, section 6.2.2).
    WholeNumber,
    /// A number of at least 0 (Validation, section 6.3.1).
    Size,
    /// A number above 0 (Validation, section 6.2.1).
    Divisor,
    /// A text (Validation, section 6.3.3).
    AnyText,
    /// A list of any values, which may be empty (Validation, section 6.1.2).
    ValueList,
    /// A list of texts, which may be empty (Validation, section 6.5.3).
    TextList,
    /// An object whose members are lists of texts (Validation, section 6.5.4).
    TextLists,
    /// The name of a type, or a list of at least one (Validation, section 6.1.1).
    TypeNames,
    /// A URI reference whose fragment can be read (Core, section 8.2.3).
    Reference,
    /// A schema: an object or a boolean (Core, section 10.2.1.4).
    OneSchema,
    /// A list of at least one value, all of which are schemas (Core, section 10.2.1.1).
    SchemaList,
    /// An object whose members are schemas (Core, section 10.3.2.1).
    SchemaMap,
    /// A URI reference that makes an identifier on the base around it (Core, section 8.2.1).
    Identifier,
    /// The name of an anchor (Core, section 8.2.2).
    AnchorName,
    /// The URI of the dialect, which counts at the root of a resource alone (Core, section 8.1.1).
    Dialect,
}
