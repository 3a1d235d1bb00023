//! What the bytes of a stream spell.

ghost use Rattle.http_laws.specs.Spelling.{CutStreamsSpellTheSame, StreamsAreSpelledOnce, HeadsBeginWithNoLineEnd, PartsOfHeadsAreNoHeads, WaitingBytesBeginWithNoRequest, HopelessBytesBeginWithNoRequest, HopelessBytesStayHopeless};

/// How a stream is cut decides nothing: where no last request was spelled, what stands behind and the next piece spell
/// what follows in the whole.
pub fn cut_streams_spell_the_same()
    ensures { CutStreamsSpellTheSame }
{}

/// The requests that a stream spells, and the rest, are the only ones.
pub fn streams_are_spelled_once()
    ensures { StreamsAreSpelledOnce }
{}

/// Behind the line ends that are dropped a head has no empty line before its first line (RFC 9112, section 2.2).
pub fn heads_begin_with_no_line_end()
    ensures { HeadsBeginWithNoLineEnd }
{}

/// A part of a head is no head, so that it waits for the rest.
pub fn parts_of_heads_are_no_heads()
    ensures { PartsOfHeadsAreNoHeads }
{}

/// Bytes that wait for more begin with no whole request.
pub fn waiting_bytes_begin_with_no_request()
    ensures { WaitingBytesBeginWithNoRequest }
{}

/// Bytes past hope begin with no whole request.
pub fn hopeless_bytes_begin_with_no_request()
    ensures { HopelessBytesBeginWithNoRequest }
{}

/// Bytes past hope stay so, whatever follows.
pub fn hopeless_bytes_stay_hopeless()
    ensures { HopelessBytesStayHopeless }
{}
