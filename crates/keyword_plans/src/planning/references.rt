//! References (JSON Schema 2020-12 Core, 8.2.3).

ghost use Rattle.std.specs.Prelude.{◌≡◌, [], Some, codes, map, option_map, option_and_then, IfErr, OnOk};
ghost use Rattle.definitions.specs.Values.{Text, get};
ghost use Rattle.definitions.specs.Schemas.{reference_at};
ghost use Rattle.definitions.specs.Targets.{target, dynamic_target};
ghost use Rattle.definitions.specs.Applied.{Application, to_target};
ghost use Rattle.json_doc.specs.Docs.{value};
ghost use Rattle.linker.specs.LinkedDocuments.{linked_schemas};
ghost use Rattle.keyword_plans.specs.Followed.{target_view};
ghost use Rattle.keyword_plans.specs.LinkedResources.{HasResources};
ghost use Rattle.keyword_plans.specs.ScopeViews.{scope_documents, scope_uris};
ghost use Rattle.applicators.specs.Plans.{planned_view};
ghost use Rattle.keyword_plans.specs.ObjectApplications.{Shows};
ghost use Rattle.applicators.specs.Subjects.{subject_value};

use crate::application::ObjectApplication;
use crate::dynamic_scope::DynamicScope;
use crate::target::Target;
use applicators::{Part, Planned, Subject, Way};
use json_doc::Doc;
use std::alloc::AllocError;

/// What a reference names (8.2.3.1).
pub(crate) fn plan_reference<'a>(
    planned: &mut Vec<Planned<'a>>,
    scope: &mut DynamicScope<'a>,
    application: &ObjectApplication<'a>,
    reference: &'a Doc,
) -> Result<(), AllocError>
    requires { planned.old.items ≡ [] }
    ensures ok { (a : Application) → Shows application.now a
        → scope_documents scope.old ≡ application.now.linked
        → get (codes "$ref") a.schema.value ≡ Some (value reference.now)
        → OnOk result (map (planned_view (codes "$ref") a) planned.new.items
        ≡ to_target a (codes "$ref")
        (option_and_then (target (linked_schemas application.now.linked.now))
        (reference_at (codes "$ref") a.schema))) }
    ensures uris { scope_uris scope.new ≡ scope_uris scope.old }
    ensures documents { scope_documents scope.new ≡ scope_documents scope.old }
{
    match reference.as_str() {
        Some(reference) => {
            let target = scope.target(*planned.allocator(), application.resource, reference)?;
            plan_target(planned, target, &application.subject)
        }
        None => Ok(()),
    }
}

/// What a dynamic reference names, in the dynamic scope (8.2.3.2).
pub(crate) fn plan_dynamic_reference<'a>(
    planned: &mut Vec<Planned<'a>>,
    scope: &mut DynamicScope<'a>,
    application: &ObjectApplication<'a>,
    reference: &'a Doc,
) -> Result<(), AllocError>
    requires { planned.old.items ≡ [] }
    ensures ok { (a : Application) → Shows application.now a
        → scope_documents scope.old ≡ application.now.linked
        → a.scope ≡ scope_uris scope.old
        → HasResources (scope_documents scope.old).now (scope_uris scope.old)
        → get (codes "$dynamicRef") a.schema.value ≡ Some (value reference.now)
        → OnOk result (map (planned_view (codes "$dynamicRef") a) planned.new.items
        ≡ to_target a (codes "$dynamicRef") (option_and_then
        (dynamic_target (linked_schemas application.now.linked.now) a.scope)
        (reference_at (codes "$dynamicRef") a.schema))) }
    ensures uris { scope_uris scope.new ≡ scope_uris scope.old }
    ensures documents { scope_documents scope.new ≡ scope_documents scope.old }
{
    match reference.as_str() {
        Some(reference) => {
            let target = scope.dynamic_target(
                *planned.allocator(),
                application.resource,
                reference,
            )?;
            plan_target(planned, target, &application.subject)
        }
        None => Ok(()),
    }
}

#[inline(always)]
fn plan_target<'a>(
    planned: &mut Vec<Planned<'a>>,
    target: Option<Target<'a>>,
    subject: &Subject<'a>,
) -> Result<(), AllocError>
    requires { planned.old.items ≡ [] }
    ensures { (a : Application) (k : Text) → a.instance ≡ subject_value subject.now
        → OnOk result (map (planned_view k a) planned.new.items
        ≡ to_target a k (option_map target_view target.entry)) }
{
    match target {
        Some(target) => {
            planned.push(Planned {
                way: Way::Target(target.origin),
                schema: target.schema,
                part: Part::Whole,
                subject: *subject,
            })?;
            Ok(())
        }
        None => Ok(()),
    }
}
