//! Absolute locations of schemas (JSON Schema 2020-12 Core, 8.2.3 and 12.3.2).

ghost use Rattle.definition_laws.specs.Locations.{LocationsNameSchemas};

/// Of documents whose resources have distinct URIs: the URI of a schema's resource with the schema's pointer as a fragment
/// (RFC 6901, section 6) is a reference that names the schema.
pub fn locations_name_schemas()
    ensures { LocationsNameSchemas }
{}
