//! That rows stand for registries.

ghost use Rattle.stored_rows.specs.Laws.{RowsGiveRegistriesBack, RowsGiveOneResult, CallsChangeRows, CallsKeepWhatIsEmptied, DigestsHaveOneLength, EmptiedRegistriesHaveTheDigests, NewDocumentsHaveNoRow, RestoredRowsAreStored, RestoringKeepsWhatIsEmptied, RowsAscend};

/// The rows of all tenants' documents, put back into the same registries without documents, give the registries. Quotas,
/// the library and keys are the same, and the keys have distinct digests.
pub fn rows_give_registries_back()
    ensures { RowsGiveRegistriesBack }
{}

/// They give no others.
pub fn rows_give_one_result()
    ensures { RowsGiveOneResult }
{}

/// A put and a batch that are granted put the rows of their documents, and a delete deletes its document's. What is refused
/// or only read changes no row.
pub fn calls_change_rows()
    ensures { CallsChangeRows }
{}

/// A document that a reply calls new has no row before.
pub fn new_documents_have_no_row()
    ensures { NewDocumentsHaveNoRow }
{}

/// No request changes a key, a quota or the library.
pub fn calls_keep_what_is_emptied()
    ensures { CallsKeepWhatIsEmptied }
{}

/// Registries with the same keys have the same digests of them.
pub fn emptied_registries_have_the_digests()
    ensures { EmptiedRegistriesHaveTheDigests }
{}

/// Ascending rows that were put back into registries without documents are the rows of the registries that this gave.
pub fn restored_rows_are_stored()
    ensures { RestoredRowsAreStored }
{}

/// Neither does putting back change a key, a quota or the library.
pub fn restoring_keeps_what_is_emptied()
    ensures { RestoringKeepsWhatIsEmptied }
{}

/// The rows of registries ascend.
pub fn rows_ascend()
    ensures { RowsAscend }
{}

/// The digest of a key has 64 characters, whatever the key.
pub fn digests_have_one_length()
    ensures { DigestsHaveOneLength }
{}
