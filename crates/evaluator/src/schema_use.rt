//! The use of a schema object.

use crate::present::Present;
use applicators::Subject;
use evaluation_log::Before;

/// The use of a schema object: the object, what it is applied to, and how much was evaluated before its keywords.
#[derive(Clone, Copy)]
pub(crate) struct SchemaUse<'s, 'a> {
    pub(crate) present: &'s Present<'s, 'a>,
    pub(crate) subject: Subject<'a>,
    pub(crate) before: Before,
}
