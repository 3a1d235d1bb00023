//! How far the request at the front was read.
ghost use Rattle.request_heads.specs.Fronts.{HasHeading};
ghost use Rattle.connections.specs.Phases.{IsOn, HasArrived};

use request_heads::{Front, Heading, Search, look};

/// How far the request at the front was read.
#[derive(Clone, Copy)]
pub enum Phase {
    /// The end of its head is sought.
    Searching(Search),
    /// Its body is awaited.
    Reading(Heading),
}

/// What stands at the front of a connection's bytes.
#[derive(Clone, Copy)]
pub enum Arrival {
    /// A part of a request, read so far.
    Waiting(Phase),
    /// Nothing that follows can make the bytes begin with a request.
    Hopeless,
    /// A whole request.
    Whole(Heading),
}

// The request with this head, if its body is whole.
fn body_of(bytes: &[u8], heading: Heading) -> Arrival
    requires { HasHeading bytes.now heading }
    ensures { HasArrived bytes.now result }
{
    if bytes.len() - heading.head_len < heading.body_len {
        Arrival::Waiting(Phase::Reading(heading))
    } else {
        Arrival::Whole(heading)
    }
}

/// What stands at the front, from how far it was read.
pub fn find(bytes: &[u8], phase: Phase) -> Arrival
    requires { IsOn bytes.now phase }
    ensures { HasArrived bytes.now result }
{
    match phase {
        Phase::Reading(heading) => body_of(bytes, heading),
        Phase::Searching(searched) => {
            let mut search = searched;
            match look(bytes, &mut search) {
                None => Arrival::Waiting(Phase::Searching(search)),
                Some(Front::Hopeless) => Arrival::Hopeless,
                Some(Front::Whole(heading)) => body_of(bytes, heading),
            }
        }
    }
}
