//! What keywords apply, and what outcomes report (JSON Schema 2020-12 Core, 10 to 12).

ghost use Rattle.definition_laws.specs.Applications.{AppliedSchemasAreKnown, FailingAnnotatesNothing, PassingReportsNoError};

/// What a keyword of a schema of some documents applies is a schema of these documents.
pub fn applied_schemas_are_known()
    ensures { AppliedSchemasAreKnown }
{}

/// A schema that fails gives no annotation.
pub fn failing_annotates_nothing()
    ensures { FailingAnnotatesNothing }
{}

/// A schema that passes reports no error.
pub fn passing_reports_no_error()
    ensures { PassingReportsNoError }
{}
