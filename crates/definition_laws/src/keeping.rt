//! What holds of a registry from request to request.

ghost use Rattle.definition_laws.specs.Keeping.{LibrariesAreKept, EmptyRegistriesAreKept, EmptyRegistriesSeeTheLibrary, StepsKeepRegistries, CoursesKeepRegistries, StepsKeepBodyValues, CoursesKeepBodyValues, StepsKeepBaseForms, CoursesKeepBaseForms, QuotasStay};

/// The library that a batch gives has kept documents, whose values are what bodies hold and whose bases are base forms.
pub fn libraries_are_kept()
    ensures { LibrariesAreKept }
{}

/// Beside such a library a tenant's registry without documents is kept.
pub fn empty_registries_are_kept()
    ensures { EmptyRegistriesAreKept }
{}

/// References in such a registry run over the library's documents.
pub fn empty_registries_see_the_library()
    ensures { EmptyRegistriesSeeTheLibrary }
{}

/// Every request, granted or refused, leaves a kept registry kept: the tenant's documents in byte order of their canonical
/// URIs, no more of them and no more bytes than the quotas allow; they and the library's each with no fault and with
/// patterns that can be read, and no resource URI twice.
pub fn steps_keep_registries()
    ensures { StepsKeepRegistries }
{}

/// So does every course of requests, also where some are refused for room.
pub fn courses_keep_registries()
    ensures { CoursesKeepRegistries }
{}

/// Every request leaves the documents' values what bodies are: well formed, and with no array of more elements than a body
/// has bytes.
pub fn steps_keep_body_values()
    ensures { StepsKeepBodyValues }
{}

/// So does every course of requests.
pub fn courses_keep_body_values()
    ensures { CoursesKeepBodyValues }
{}

/// Every request leaves the URIs that documents stand under base forms of URIs.
pub fn steps_keep_base_forms()
    ensures { StepsKeepBaseForms }
{}

/// So does every course of requests.
pub fn courses_keep_base_forms()
    ensures { CoursesKeepBaseForms }
{}

/// No request changes a quota, or the library.
pub fn quotas_stay()
    ensures { QuotasStay }
{}
