//! The table of keywords, in the order of evaluation.

ghost use Rattle.std.specs.Prelude.{◌≡◌, false, None, List};
ghost use Rattle.definitions.specs.Applied.{Application, Outcome, Part};
ghost use Rattle.definitions.specs.Evaluated.{annotation_of};
ghost use Rattle.keywords.specs.Annotating.{annotates};
ghost use Rattle.keywords.specs.Groups.{group_number, is_evaluated};
ghost use Rattle.keywords.specs.Rows.{row_of};
ghost use Rattle.keywords.specs.Shapes.{shape_view};

use crate::group::Group;
use crate::shape::Shape;

/// A keyword: those that are evaluated, in the order of evaluation, and then those that only name, or keep schemas for
/// others to refer to.
#[derive(Clone, Copy, Debug, Drop, PartialEq, Eq)]
pub enum Keyword {
    /// `$ref` (Core, section 8.2.3.1).
    Ref,
    /// `$dynamicRef` (Core, section 8.2.3.2).
    DynamicRef,
    /// `type` (Validation, section 6.1.1).
    Type,
    /// `enum` (Validation, section 6.1.2).
    Enum,
    /// `const` (Validation, section 6.1.3).
    Const,
    /// `multipleOf` (Validation, section 6.2.1).
    MultipleOf,
    /// `maximum` (Validation, section 6.2.2).
    Maximum,
    /// `exclusiveMaximum` (Validation, section 6.2.3).
    ExclusiveMaximum,
    /// `minimum` (Validation, section 6.2.4).
    Minimum,
    /// `exclusiveMinimum` (Validation, section 6.2.5).
    ExclusiveMinimum,
    /// `maxLength` (Validation, section 6.3.1).
    MaxLength,
    /// `minLength` (Validation, section 6.3.2).
    MinLength,
    /// `pattern` (Validation, section 6.3.3).
    Pattern,
    /// `maxProperties` (Validation, section 6.5.1).
    MaxProperties,
    /// `minProperties` (Validation, section 6.5.2).
    MinProperties,
    /// `required` (Validation, section 6.5.3).
    Required,
    /// `dependentRequired` (Validation, section 6.5.4).
    DependentRequired,
    /// `maxItems` (Validation, section 6.4.1).
    MaxItems,
    /// `minItems` (Validation, section 6.4.2).
    MinItems,
    /// `uniqueItems` (Validation, section 6.4.3).
    UniqueItems,
    /// `allOf` (Core, section 10.2.1.1).
    AllOf,
    /// `anyOf` (Core, section 10.2.1.2).
    AnyOf,
    /// `oneOf` (Core, section 10.2.1.3).
    OneOf,
    /// `not` (Core, section 10.2.1.4).
    Not,
    /// `if` (Core, section 10.2.2.1).
    If,
    /// `then` (Core, section 10.2.2.2).
    Then,
    /// `else` (Core, section 10.2.2.3).
    Else,
    /// `dependentSchemas` (Core, section 10.2.2.4).
    DependentSchemas,
    /// `prefixItems` (Core, section 10.3.1.1).
    PrefixItems,
    /// `items` (Core, section 10.3.1.2).
    Items,
    /// `contains` (Core, section 10.3.1.3).
    Contains,
    /// `minContains` (Validation, section 6.4.5).
    MinContains,
    /// `maxContains` (Validation, section 6.4.4).
    MaxContains,
    /// `properties` (Core, section 10.3.2.1).
    Properties,
    /// `patternProperties` (Core, section 10.3.2.2).
    PatternProperties,
    /// `additionalProperties` (Core, section 10.3.2.3).
    AdditionalProperties,
    /// `propertyNames` (Core, section 10.3.2.4).
    PropertyNames,
    /// `unevaluatedItems` (Core, section 11.2).
    UnevaluatedItems,
    /// `unevaluatedProperties` (Core, section 11.3).
    UnevaluatedProperties,
    /// `$defs` (Core, section 8.2.4).
    Defs,
    /// `definitions` (Validation, appendix A, as `$defs`).
    Definitions,
    /// `contentSchema` (Validation, section 8.5).
    ContentSchema,
    /// `$id` (Core, section 8.2.1).
    Id,
    /// `$anchor` (Core, section 8.2.2).
    Anchor,
    /// `$dynamicAnchor` (Core, section 8.2.2).
    DynamicAnchor,
    /// `$schema` (Core, section 8.1.1).
    Schema,
}

/// How many keywords there are.
pub const KEYWORDS: usize = Keyword::Schema as usize + 1;

// The table: a row for each keyword, in the order of evaluation, of its name and its shape; what stands behind these says
// that it begins a group of several, or follows the keyword that begins its group, or only declares, and that it annotates.
// The macro makes an array of one column.
macro_rules! rows {
    ($column:ident) => {
        [
            $column!(Ref, "$ref", Reference),
            $column!(DynamicRef, "$dynamicRef", Reference),
            $column!(Type, "type", TypeNames),
            $column!(Enum, "enum", ValueList),
            $column!(Const, "const", AnyValue),
            $column!(MultipleOf, "multipleOf", Divisor),
            $column!(Maximum, "maximum", WholeNumber),
            $column!(ExclusiveMaximum, "exclusiveMaximum", WholeNumber),
            $column!(Minimum, "minimum", WholeNumber),
            $column!(ExclusiveMinimum, "exclusiveMinimum", WholeNumber),
            $column!(MaxLength, "maxLength", Size),
            $column!(MinLength, "minLength", Size),
            $column!(Pattern, "pattern", AnyText),
            $column!(MaxProperties, "maxProperties", Size),
            $column!(MinProperties, "minProperties", Size),
            $column!(Required, "required", TextList),
            $column!(DependentRequired, "dependentRequired", TextLists),
            $column!(MaxItems, "maxItems", Size),
            $column!(MinItems, "minItems", Size),
            $column!(UniqueItems, "uniqueItems", Truth),
            $column!(AllOf, "allOf", SchemaList),
            $column!(AnyOf, "anyOf", SchemaList),
            $column!(OneOf, "oneOf", SchemaList),
            $column!(Not, "not", OneSchema),
            $column!(If, "if", OneSchema, begins Conditional),
            $column!(Then, "then", OneSchema, follows If),
            $column!(Else, "else", OneSchema, follows If),
            $column!(DependentSchemas, "dependentSchemas", SchemaMap),
            $column!(PrefixItems, "prefixItems", SchemaList, annotates),
            $column!(Items, "items", OneSchema, annotates),
            $column!(Contains, "contains", OneSchema, begins Counted, annotates),
            $column!(MinContains, "minContains", Size, follows Contains),
            $column!(MaxContains, "maxContains", Size, follows Contains),
            $column!(Properties, "properties", SchemaMap, annotates),
            $column!(PatternProperties, "patternProperties", SchemaMap, annotates),
            $column!(AdditionalProperties, "additionalProperties", OneSchema, annotates),
            $column!(PropertyNames, "propertyNames", OneSchema),
            $column!(UnevaluatedItems, "unevaluatedItems", OneSchema, annotates),
            $column!(UnevaluatedProperties, "unevaluatedProperties", OneSchema, annotates),
            $column!(Defs, "$defs", SchemaMap, declares),
            $column!(Definitions, "definitions", SchemaMap, declares),
            $column!(ContentSchema, "contentSchema", OneSchema, declares),
            $column!(Id, "$id", Identifier, declares),
            $column!(Anchor, "$anchor", AnchorName, declares),
            $column!(DynamicAnchor, "$dynamicAnchor", AnchorName, declares),
            $column!(Schema, "$schema", Dialect, declares),
        ]
    };
}

macro_rules! name {
    ($keyword:ident, $name:literal, $($rest:tt)*) => { $name };
}

macro_rules! shape {
    ($keyword:ident, $name:literal, $shape:ident $($rest:tt)*) => { Shape::$shape };
}

macro_rules! group {
    ($keyword:ident, $name:literal, $shape:ident, begins $group:ident $($rest:tt)*) => { Group::$group };
    ($keyword:ident, $name:literal, $shape:ident, follows $first:ident) => { Group::Empty };
    ($keyword:ident, $name:literal, $shape:ident, declares) => { Group::Empty };
    ($keyword:ident, $($rest:tt)*) => { Group::One(Keyword::$keyword) };
}

macro_rules! number {
    ($keyword:ident, $name:literal, $shape:ident, follows $first:ident) => { Keyword::$first as u8 };
    ($keyword:ident, $name:literal, $shape:ident, declares) => { KEYWORDS as u8 };
    ($keyword:ident, $($rest:tt)*) => { Keyword::$keyword as u8 };
}

macro_rules! annotates {
    ($keyword:ident, $name:literal, $shape:ident, annotates) => { true };
    ($keyword:ident, $name:literal, $shape:ident, begins $group:ident, annotates) => { true };
    ($keyword:ident, $($rest:tt)*) => { false };
}

static NAMES: [&'static str; KEYWORDS] = rows!(name);

static SHAPES: [Shape; KEYWORDS] = rows!(shape);

/// The group that begins with each keyword.
pub(crate) static GROUPS: [Group; KEYWORDS] = rows!(group);

// Where its group begins in the table; how many keywords there are, where it is not evaluated.
static NUMBERS: [u8; KEYWORDS] = rows!(number);

// Whether it may have an annotation of its own.
static ANNOTATES: [bool; KEYWORDS] = rows!(annotates);

// The keywords of these names; any where there is none.
macro_rules! keywords {
    (@ _) => { Keyword::If };
    (@ $keyword:ident) => { Keyword::$keyword };
    ($($keyword:tt)*) => { [$(keywords!(@ $keyword)),*] };
}

/// The one keyword that a name may be, at the place that its length and two of its bytes give: no two keywords have the same
/// place. Where no keyword has a place, any stands there.
pub(crate) static LIKELY: [Keyword; 128] = keywords![
    Ref _ _ UniqueItems _ _ PatternProperties Schema
    _ _ Properties AllOf _ _ _ _
    UnevaluatedProperties _ _ MinItems _ _ _ Required
    _ Enum _ ContentSchema MinContains _ Anchor _
    _ _ AdditionalProperties _ Pattern _ _ _
    Maximum MaxLength _ PrefixItems Then _ MinProperties _
    _ DependentRequired _ _ _ _ Type _
    _ If Contains _ _ _ ExclusiveMinimum _
    _ _ Not MaxItems PropertyNames Else MultipleOf _
    ExclusiveMaximum _ _ Const MaxContains _ _ _
    _ _ _ _ _ _ _ _
    _ _ DependentSchemas _ _ _ MaxProperties AnyOf
    _ _ DynamicAnchor Items _ _ _ _
    _ _ _ _ _ OneOf Minimum _
    _ _ _ _ Definitions UnevaluatedItems _ _
    _ MinLength _ _ Id _ Defs DynamicRef
];

impl Keyword {
    /// The name under which it stands in a schema.
    pub fn name(self) -> &'static str
        ensures { result.now ≡ (row_of self).name }
    {
        NAMES[self as usize]
    }

    /// The shape that its value has to have.
    pub fn shape(self) -> Shape
        ensures { shape_view result ≡ (row_of self).shape }
    {
        SHAPES[self as usize]
    }

    /// Whether it says anything of an instance: all do that don't only name, or keep schemas.
    pub fn is_evaluated(self) -> bool
        ensures { result ≡ is_evaluated (row_of self) }
    {
        (NUMBERS[self as usize] as usize) < KEYWORDS
    }

    /// Where its group begins in the table, from 0; how many keywords there are, where it is not evaluated.
    #[inline(always)]
    #[tactic(auto, using(crate::proofs::Grouped::numbered))]
    pub fn group_number(self) -> usize
        ensures { result ≡ group_number (row_of self).name }
    {
        NUMBERS[self as usize] as usize
    }

    /// Whether it may annotate where it passes (Core, 10.3 and 11): those that do annotate an empty object or array.
    #[inline(always)]
    pub fn annotates(self) -> bool
        ensures some { (a : Application) (p : Part × Outcome)
            → result ≡ annotates a p (row_of self).meaning }
        ensures none { (a : Application) (os : List (Part × Outcome)) → result ≡ false
            → annotation_of a (row_of self).meaning os ≡ None }
    {
        ANNOTATES[self as usize]
    }
}
