//! What a schema's identity says of it (JSON Schema 2020-12 Core, 8.2.1 and 8.2.3).

ghost use Rattle.definition_laws.specs.Identities.{IdentityNamesOneSchema, RootsAreFound, SchemasArePointedTo};

/// Of the schemas of documents whose resources have distinct URIs no two have the same URI and pointer.
pub fn identity_names_one_schema()
    ensures { IdentityNamesOneSchema }
{}

/// The root of each resource is what its URI finds.
pub fn roots_are_found()
    ensures { RootsAreFound }
{}

/// Each schema is what its pointer leads to from the root of its resource.
pub fn schemas_are_pointed_to()
    ensures { SchemasArePointedTo }
{}
