//! What is measured: parts of a check, and of the service.

/// A part of a check, or of the service, that is done again and again.
#[derive(Clone, Copy, Debug, PartialEq, Eq)]
pub enum Workload {
    /// The syntax of the instance's text is tested, and nothing is kept of it.
    Syntax,
    /// The text of the instance is read.
    Read,
    /// The schema is scanned, compiled and linked.
    Compile,
    /// The instance is evaluated by the linked schema, up to the text of the output, as a hub does it for each request.
    Validate,
    /// The instance is evaluated by the linked schema, up to the text of the output, by one evaluator, which stays from
    /// one turn to the next.
    Evaluate,
    /// All of it, from the text that holds the schema and the instance.
    Check,
    /// A tenant's requests are answered.
    Ask,
    /// A connection's bytes are fed in pieces.
    Feed,
}

/// The workload that has this name.
pub fn named(name: &str) -> Option<Workload> {
    match name {
        "syntax" => Some(Workload::Syntax),
        "read" => Some(Workload::Read),
        "compile" => Some(Workload::Compile),
        "validate" => Some(Workload::Validate),
        "evaluate" => Some(Workload::Evaluate),
        "check" => Some(Workload::Check),
        "ask" => Some(Workload::Ask),
        "feed" => Some(Workload::Feed),
        _ => None,
    }
}
