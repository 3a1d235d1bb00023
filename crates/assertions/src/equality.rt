//! Equal values (Validation, sections 6.1.2 and 6.4.3).

ghost use Rattle.std.specs.Prelude.{◌≡◌, IfOk};
ghost use Rattle.definitions.specs.Assertions.{is_one_of, is_unique_if};
ghost use Rattle.json_doc.specs.Docs.{value};

use json_doc::Doc;
use std::alloc::{AllocError, Global};
use value_order::{has_same, is_unique};

/// Whether the instance is equal to one of the values.
pub(crate) fn is_one_of(instance: &Doc, values: &Doc) -> bool
    ensures { result ≡ is_one_of (value instance.now) (value values.now) }
{
    match values {
        Doc::List(values) => has_same(instance, values),
        _ => false,
    }
}

/// Whether no two elements of the instance are equal, where the keyword's value is `true`. The only error is want of
/// memory.
pub(crate) fn is_unique_if(alloc: Global, asked: &Doc, instance: &Doc) -> Result<bool, AllocError>
    ensures { IfOk result (λ b. b ≡ is_unique_if (value asked.now) (value instance.now)) }
{
    match asked {
        Doc::Bool(true) => is_unique(alloc, instance),
        _ => Ok(true),
    }
}
