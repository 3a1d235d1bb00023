//! Alike tables of schemas, as those of a registry and of a bundle (JSON Schema 2020-12 Core, 9.3).

ghost use Rattle.definition_laws.specs.Likeness.{AlikeTablesGiveTheSame, AlikeTablesAnswerTheSame, ReachIsEnough};

/// By keywords of the table of all keywords, alike schemas of two alike tables that are applied in the same way have the
/// same outcome.
pub fn alike_tables_give_the_same()
    ensures { AlikeTablesGiveTheSame }
{}

/// Two alike tables give the same answer to a URI that finds alike roots in them, refusals included.
pub fn alike_tables_answer_the_same()
    ensures { AlikeTablesAnswerTheSame }
{}

/// Over documents with distinct resource URIs an answer is that of the reached documents alone, where none of their
/// references is missing.
pub fn reach_is_enough()
    ensures { ReachIsEnough }
{}
