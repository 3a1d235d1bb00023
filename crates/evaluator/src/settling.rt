//! What a keyword itself reports, annotates and evaluates, once its schemas were applied (JSON Schema 2020-12 Core, 7.7,
//! 11 and 12.4.2).

ghost use Rattle.std.specs.Prelude.{◌≡◌, ◌++◌, [], ◌∷◌, ℕ, List, None, true, drop, if◌then◌else◌, length, map, OnOk};
ghost use Rattle.definitions.specs.Values.{Text, Value};
ghost use Rattle.definitions.specs.Applied.{Application};
ghost use Rattle.definitions.specs.Keywords.{looks_at_evaluated};
ghost use Rattle.definitions.specs.Outcomes.{own_annotation};
ghost use Rattle.basic_output.specs.Units.{unit_texts};
ghost use Rattle.evaluation_context.specs.Frames.{context_view};
ghost use Rattle.applicators.specs.Annotations.{annotation_names};
ghost use Rattle.keyword_plans.specs.ScopeViews.{scope_documents};
ghost use Rattle.json_doc.specs.NamedMembers.{name_text};
ghost use Rattle.keywords.specs.Rows.{row_of};
ghost use Rattle.applicators.specs.Subjects.{subject_value};
ghost use Rattle.linker.specs.declared.linked.Linked.{Linked};
ghost use Rattle.evaluation_log.specs.Logs.{log_view, mark_view};
ghost use Rattle.evaluation_log.specs.Notes.{Notes, annotation_texts, evaluates, lengths, notes_of_both, parts_notes, uses_notes, visible_notes};
ghost use Rattle.evaluator.specs.Rounds.{IsUnder, use_there};

use applicators::{Evaluated, Subject, annotate, distinct_names};
use basic_output::{Mark, Says, Units};
use evaluation_context::Context;
use evaluation_log::{Before, Log, LogMark};
use json_doc::Name;
use keywords::Keyword;
use std::alloc::AllocError;

/// Puts what the keyword itself says in the place of what it applied said: the context stands at the keyword, and
/// `applied` is the number of schemas that it applied, after the mark. The only error is want of memory.
pub(crate) fn settle<'a>(
    context: &mut Context<'a>,
    log: &mut Log<'a>,
    keyword: Keyword,
    subject: Subject<'a>,
    mark: &LogMark,
    applied: u64,
    passes: bool,
) -> Result<(), AllocError>
    ensures back { context_view context.new ≡ context_view context.old }
    ensures documents { scope_documents context.new.scope ≡ scope_documents context.old.scope }
    ensures noted { (l : Linked) (left : ℕ) (a : Application) (names : List Text) (indexes : List ℕ)
        (v : Value) (older : Notes)
        → let u = use_there l left a keyword names indexes v in
        a.instance ≡ subject_value subject.entry → applied ≡ length u.outcomes → passes ≡ u.passes
        → IsUnder (context_view context.old) (row_of keyword).name a
        → mark_view mark.now ≡ lengths older
        → log_view log.old ≡ notes_of_both older (parts_notes (row_of keyword).meaning u.outcomes)
        → OnOk result (log_view log.new ≡ notes_of_both older (uses_notes a (u ∷ []))) }
{
    hide(log, keyword, mark);
    if passes {
        log.cut_errors(mark);
        if keyword.annotates() {
            note_own(context, log, keyword, subject, mark, applied)
        } else {
            Ok(())
        }
    } else {
        log.cut_annotations(mark);
        context.write_locations()?;
        log.insert_error(mark, context.location(), Says::NotMet(keyword))?;
        Ok(())
    }
}

// What `not` and `propertyNames` apply doesn't annotate, and `not` evaluates nothing.
fn hide(log: &mut Log<'_>, keyword: Keyword, mark: &LogMark)
    ensures { (older more : Notes) → mark_view mark.now ≡ lengths older
        → log_view log.old ≡ notes_of_both older more
        → log_view log.new ≡ notes_of_both older (visible_notes (row_of keyword).meaning more) }
{
    match keyword {
        Keyword::Not => {
            log.cut_annotations(mark);
            log.cut_evaluated(mark);
        }
        Keyword::PropertyNames => log.cut_annotations(mark),
        _ => {}
    }
}

// The keyword's own annotation stands before those of what it applied.
fn note_own<'a>(
    context: &mut Context<'a>,
    log: &mut Log<'a>,
    keyword: Keyword,
    subject: Subject<'a>,
    mark: &LogMark,
    applied: u64,
) -> Result<(), AllocError>
    ensures back { context_view context.new ≡ context_view context.old }
    ensures documents { scope_documents context.new.scope ≡ scope_documents context.old.scope }
    ensures noted { (l : Linked) (left : ℕ) (a : Application) (names : List Text) (indexes : List ℕ)
        (v : Value) (older more : Notes)
        → let u = use_there l left a keyword names indexes v in
        a.instance ≡ subject_value subject.entry → applied ≡ length u.outcomes
        → IsUnder (context_view context.old) (row_of keyword).name a
        → mark_view mark.now ≡ lengths older → log_view log.old ≡ notes_of_both older more
        → more.names ≡ u.names
        → more.indexes ≡ u.indexes
        → OnOk result (log_view log.new
        ≡ notes_of_both older (record more {
          annotations = annotation_texts (own_annotation a u u.annotation)
              ++ more.annotations;
        })) }
{
    let evaluated = evaluated_since(&log.names, &log.indexes, mark.before());
    match keyword {
        Keyword::PatternProperties => {
            let names = distinct_names(log.alloc, evaluated.names)?;
            let distinct = Evaluated {
                names: &names,
                indexes: evaluated.indexes,
            };
            insert_own(
                context,
                &mut log.units.annotations,
                mark.annotations,
                keyword,
                subject,
                applied,
                distinct,
            )
        }
        _ => insert_own(
            context,
            &mut log.units.annotations,
            mark.annotations,
            keyword,
            subject,
            applied,
            evaluated,
        ),
    }
}

// Inserts the keyword's own annotation, if it makes one, before those of what it applied, among the annotations alone.
// Of the names `evaluated` has those that the keyword annotates with.
#[inline(always)]
fn insert_own<'a>(
    context: &mut Context<'a>,
    annotations: &mut Units,
    mark: Mark,
    keyword: Keyword,
    subject: Subject<'a>,
    applied: u64,
    evaluated: Evaluated<'_, 'a>,
) -> Result<(), AllocError>
    ensures back { context_view context.new ≡ context_view context.old }
    ensures documents { scope_documents context.new.scope ≡ scope_documents context.old.scope }
    ensures noted { (l : Linked) (left : ℕ) (a : Application) (names : List Text) (indexes : List ℕ)
        (v : Value) (older more : List Text)
        → let u = use_there l left a keyword names indexes v in
        a.instance ≡ subject_value subject.entry → applied ≡ length u.outcomes
        → IsUnder (context_view context.old) (row_of keyword).name a
        → mark ≡ length older → unit_texts annotations.old ≡ older ++ more
        → map name_text evaluated.entry.names.now
        ≡ annotation_names (row_of keyword).meaning u.names
        → evaluated.entry.indexes.now ≡ u.indexes
        → OnOk result (unit_texts annotations.new
        ≡ older ++ (annotation_texts (own_annotation a u u.annotation) ++ more)) }
{
    match annotate(keyword, subject, applied, evaluated) {
        Some(says) => {
            context.write_locations()?;
            annotations.insert(mark, true, context.location(), says)?;
            Ok(())
        }
        None => Ok(()),
    }
}

/// The names and the indexes that were evaluated later, where the keyword looks at them (Core, 11); else none.
pub(crate) fn evaluated_for<'s, 'a>(
    keyword: Keyword,
    names: &'s [Name<'a>],
    indexes: &'s [usize],
    before: Before,
) -> Evaluated<'s, 'a>
    ensures names { looks_at_evaluated (row_of keyword).meaning ≡ true
        → map name_text result.names.now ≡ drop before.names (map name_text names.now) }
    ensures indexes { looks_at_evaluated (row_of keyword).meaning ≡ true
        → result.indexes.now ≡ drop before.indexes indexes.now }
{
    match keyword {
        Keyword::UnevaluatedItems => evaluated_since(names, indexes, before),
        Keyword::UnevaluatedProperties => evaluated_since(names, indexes, before),
        _ => Evaluated {
            names: &names[..0],
            indexes: &indexes[..0],
        },
    }
}

// The names and the indexes that were evaluated later.
fn evaluated_since<'s, 'a>(
    names: &'s [Name<'a>],
    indexes: &'s [usize],
    before: Before,
) -> Evaluated<'s, 'a>
    ensures names { map name_text result.names.now
        ≡ drop before.names (map name_text names.now) }
    ensures indexes { result.indexes.now ≡ drop before.indexes indexes.now }
{
    Evaluated {
        names: since(names, before.names),
        indexes: since(indexes, before.indexes),
    }
}

fn since<T>(items: &[T], number: usize) -> &[T]
    ensures { result.now ≡ drop number items.now }
{
    &items[number.min(items.len())..]
}
