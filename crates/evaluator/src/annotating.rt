//! The names of a schema object that annotate with their own value.

ghost use Rattle.std.specs.Prelude.{◌≡◌, ◌||◌, [], ◌∷◌, false, codes, not, OnOk};
ghost use Rattle.definitions.specs.Applied.{Application};
ghost use Rattle.definitions.specs.Evaluated.{is_annotation};
ghost use Rattle.definitions.specs.Keywords.{is_keyword_of, keywords};
ghost use Rattle.definitions.specs.Uris.{begins};
ghost use Rattle.definitions.specs.Values.{same_text};
ghost use Rattle.definitions.specs.Outcomes.{other_annotations, unit};
ghost use Rattle.json_doc.specs.Docs.{value, members_value};
ghost use Rattle.json_doc.specs.Members.{members_left};
ghost use Rattle.json_doc.specs.NamedMembers.{name_text};
ghost use Rattle.evaluation_context.specs.Frames.{context_view, frame_standing};
ghost use Rattle.evaluation_context.specs.Standings.{standing_of};
ghost use Rattle.evaluator.specs.Annotations.{annotations_among};
ghost use Rattle.evaluation_log.specs.Logs.{log_view};
ghost use Rattle.evaluation_log.specs.Notes.{annotation_texts, no_notes, notes_of_both};
ghost use Rattle.applicators.specs.Subjects.{subject_value};
ghost use Rattle.keyword_plans.specs.ScopeViews.{scope_documents};

use crate::dollar_names::{are_many, cut_at_dollar_names};
use crate::present::Present;
use applicators::Subject;
use basic_output::Says;
use evaluation_context::Context;
use evaluation_log::Log;
use json_doc::{Doc, Members, MembersIter, Name};
use std::alloc::AllocError;

/// The annotations of the names of a schema object that annotate with their own value, in byte order. The only error is
/// want of memory.
#[inline(always)]
pub(crate) fn note_others<'a>(
    context: &mut Context<'a>,
    log: &mut Log<'a>,
    present: &Present<'_, 'a>,
    subject: Subject<'a>,
) -> Result<(), AllocError>
    ensures back { OnOk result (context_view context.new ≡ context_view context.old) }
    ensures documents { scope_documents context.new.scope ≡ scope_documents context.old.scope }
    ensures noted { (a : Application) → frame_standing (context_view context.old) ≡ standing_of a
        → a.schema.value ≡ value present.now.schema.now
        → a.instance ≡ subject_value subject.entry
        → OnOk result (log_view log.new
        ≡ notes_of_both (log_view log.old)
        (record no_notes { annotations = annotation_texts (other_annotations a) })) }
{
    if !present.may_annotate() {
        return Ok(());
    }
    let schema = present.schema;
    match schema.as_dict() {
        Some(members) => note_members(context, log, schema, members, subject),
        None => Ok(()),
    }
}

fn note_members<'a>(
    context: &mut Context<'a>,
    log: &mut Log<'a>,
    schema: &'a Doc,
    members: &'a Members,
    subject: Subject<'a>,
) -> Result<(), AllocError>
    ensures back { OnOk result (context_view context.new ≡ context_view context.old) }
    ensures documents { scope_documents context.new.scope ≡ scope_documents context.old.scope }
    ensures noted { (a : Application) → frame_standing (context_view context.old) ≡ standing_of a
        → a.schema.value ≡ value schema.now → a.instance ≡ subject_value subject.entry
        → OnOk result (log_view log.new
        ≡ notes_of_both (log_view log.old) (record no_notes {
          annotations = annotation_texts
              (annotations_among a (members_value members.now));
        })) }
{
    if !are_many(members) {
        return note_among(context, log, schema, members.iter(), subject);
    }
    let cut = cut_at_dollar_names(members);
    note_among(context, log, schema, cut.before, subject)?;
    note_among(context, log, schema, cut.after, subject)
}

fn note_among<'a>(
    context: &mut Context<'a>,
    log: &mut Log<'a>,
    schema: &'a Doc,
    members: MembersIter<'a>,
    subject: Subject<'a>,
) -> Result<(), AllocError>
    ensures back { OnOk result (context_view context.new ≡ context_view context.old) }
    ensures documents { scope_documents context.new.scope ≡ scope_documents context.old.scope }
    ensures noted { (a : Application) → frame_standing (context_view context.old) ≡ standing_of a
        → a.schema.value ≡ value schema.now → a.instance ≡ subject_value subject.entry
        → OnOk result (log_view log.new
        ≡ notes_of_both (log_view log.old) (record no_notes {
          annotations = annotation_texts
              (annotations_among a (members_left members.entry));
        })) }
{
    for (name, member) in members.named() {
        if annotates(name, schema, subject) {
            note_member(context, log, name.as_str(), member)?;
        }
    }
    Ok(())
}

fn note_member<'a>(
    context: &mut Context<'a>,
    log: &mut Log<'a>,
    name: &'a str,
    member: &'a Doc,
) -> Result<(), AllocError>
    ensures back { OnOk result (context_view context.new ≡ context_view context.old) }
    ensures documents { scope_documents context.new.scope ≡ scope_documents context.old.scope }
    ensures noted { (a : Application) → frame_standing (context_view context.old) ≡ standing_of a
        → OnOk result (log_view log.new
        ≡ notes_of_both (log_view log.old) (record no_notes {
          annotations = annotation_texts
              (unit a name.now (value member.now) ∷ []);
        })) }
{
    context.enter_name(name)?;
    context.write_locations()?;
    log.push_annotation(context.location(), Says::Value(member))?;
    context.leave_keyword();
    Ok(())
}

// Whether a name of the schema object annotates with its value: those of the contents of strings (JSON Schema 2020-12
// Validation, 8), and all that are no keywords and don't begin with `$` (Core, 6.5).
fn annotates(name: Name<'_>, schema: &Doc, subject: Subject<'_>) -> bool
    ensures { result
        ≡ is_annotation (value schema.now) (subject_value subject.entry) (name_text name.entry) }
{
    if may_be_of_contents(name.as_str()) {
        annotates_by_name(name, schema, subject)
    } else {
        is_unknown(name)
    }
}

// Whether a name of the schema object annotates with its value. The name is compared with the three that are of the
// contents of strings.
fn annotates_by_name(name: Name<'_>, schema: &Doc, subject: Subject<'_>) -> bool
    ensures { result
        ≡ is_annotation (value schema.now) (subject_value subject.entry) (name_text name.entry) }
{
    match name.as_str() {
        "contentSchema" => subject.as_str().is_some() && schema.get("contentMediaType").is_some(),
        "contentEncoding" => subject.as_str().is_some(),
        "contentMediaType" => subject.as_str().is_some(),
        _ => is_unknown(name),
    }
}

// Whether the name may be one of the three of the contents of strings: few others are as long.
fn may_be_of_contents(name: &str) -> bool
    ensures schema { result ≡ false → same_text name.now (codes "contentSchema") ≡ false }
    ensures encoding { result ≡ false → same_text name.now (codes "contentEncoding") ≡ false }
    ensures media_type { result ≡ false → same_text name.now (codes "contentMediaType") ≡ false }
{
    matches!(name.len(), 13 | 15 | 16)
}

// Whether the name is no keyword's and doesn't begin with `$`.
fn is_unknown(name: Name<'_>) -> bool
    ensures { result ≡ not (is_keyword_of keywords (name_text name.entry)
        || begins (name_text name.entry) (codes "$")) }
{
    !(is_keyword(name) || name.as_str().as_bytes().starts_with(b"$"))
}

fn is_keyword(name: Name<'_>) -> bool
    ensures { result ≡ is_keyword_of keywords (name_text name.entry) }
{
    name.keyword().is_some()
}
