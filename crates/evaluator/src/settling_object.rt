//! What stays of a schema object once its keywords were used.

ghost use Rattle.std.specs.Prelude.{◌≡◌, List, OnOk};
ghost use Rattle.std.specs.List.{list_all};
ghost use Rattle.definitions.specs.Applied.{Application};
ghost use Rattle.definitions.specs.Outcomes.{Use, outcome_of_uses};
ghost use Rattle.json_doc.specs.Docs.{value};
ghost use Rattle.evaluation_context.specs.Frames.{context_view, frame_standing};
ghost use Rattle.evaluation_context.specs.Standings.{application_at};
ghost use Rattle.evaluation_log.specs.Logs.{log_view, mark_view};
ghost use Rattle.evaluation_log.specs.Notes.{Notes, lengths, notes_of_both, object_notes, outcome_notes};
ghost use Rattle.applicators.specs.Subjects.{subject_value};
ghost use Rattle.keyword_plans.specs.ScopeViews.{scope_documents};

use crate::annotating::note_others;
use crate::present::Present;
use applicators::Subject;
use evaluation_context::Context;
use evaluation_log::{Log, LogMark};
use std::alloc::AllocError;

/// Of a schema object that was counted, and whose keywords were used since the mark: where all pass, the names annotate that are
/// no keywords; else the errors alone stay (JSON Schema 2020-12 Core, 7.7.1.1). The only error is want of memory.
#[inline(always)]
pub(crate) fn settle_object<'a>(
    context: &mut Context<'a>,
    log: &mut Log<'a>,
    mark: &LogMark,
    present: &Present<'_, 'a>,
    subject: Subject<'a>,
    valid: bool,
) -> Result<(), AllocError>
    ensures back { OnOk result (context_view context.new ≡ context_view context.old) }
    ensures documents { scope_documents context.new.scope ≡ scope_documents context.old.scope }
    ensures noted { (a : Application) (older : Notes) (us : List Use)
        → a ≡ application_at (frame_standing (context_view context.old))
        (value present.now.schema.now) (subject_value subject.entry)
        → mark_view mark.now ≡ lengths older
        → log_view log.old ≡ notes_of_both older (object_notes a us)
        → valid ≡ list_all (λ u. u.passes) us
        → OnOk result (log_view log.new
        ≡ notes_of_both older (outcome_notes (outcome_of_uses a us))) }
{
    if valid {
        note_others(context, log, present, subject)
    } else {
        log.cut_annotations(mark);
        log.cut_evaluated(mark);
        Ok(())
    }
}
