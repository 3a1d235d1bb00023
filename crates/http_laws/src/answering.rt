//! That a stream has one answer.

ghost use Rattle.definitions.specs.Values.{Text};
ghost use Rattle.definitions.specs.Registries.{Request, Reply};
ghost use Rattle.http_laws.specs.Answering.{StreamsAreAnsweredOnce, EndedStreamsAreAnsweredOnce};

/// Whatever answers requests.
pub trait Answering {
    /// From one state a request with this key may be answered so, and leave the other state.
    ghost answers: { Self → Text → Request → Reply → Self → Type 0 };
}

/// Where each request has one answer, so has a stream: the same requests are answered, the same state is left and the
/// same bytes are sent, save that one connection may be closed already while the other still waits.
pub fn streams_are_answered_once<A: Answering>()
    ensures { StreamsAreAnsweredOnce A.answers }
{}

/// Where each request has one answer, the bytes sent up to the end of a stream are the same.
pub fn ended_streams_are_answered_once<A: Answering>()
    ensures { EndedStreamsAreAnsweredOnce A.answers }
{}
