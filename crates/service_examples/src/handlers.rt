//! What answers the requests of the tests.
ghost use Rattle.std.specs.Prelude.{◌≡◌, ⊤, ℕ, None};
ghost use Rattle.connections.specs.Connected.{connection_at};

use connections::{Handler, Sessions, Unsettled};
use output_texts::{NotedUnits, Output};
use requests::{Fault, Reply, Request};
use std::alloc::{AllocError, Global};

/// Answers each request by its kind alone, and counts those that it is asked. It fails to settle where it was asked more
/// often than it may be.
#[derive(Drop)]
pub struct Counting {
    asked: usize,
    most: usize,
}

fn reply_to(alloc: Global, request: &Request<'_>) -> Result<Reply, AllocError> {
    Ok(match request {
        Request::Put(_, _) => Reply::Stored(String::from_str(alloc, "https://ex.org/s")?, false),
        Request::Validate(_, _) => {
            let units = Box::new(alloc, NotedUnits::new(alloc))?;
            Reply::Output(Output::new(true, units))
        }
        _ => Reply::Refused(Fault::NotFound),
    })
}

impl Handler for Counting {
    ghost State = { Unit {0} };

    ghost state = { λ s. tt };

    ghost answers = { λ s key q r t. ⊤ };

    ghost finds = { λ s t. ⊤ };

    fn apply(&mut self, alloc: Global, key: &str, request: &Request<'_>) -> Reply {
        self.asked = self.asked.saturating_add(1);
        if key != "k1" {
            return Reply::Refused(Fault::UnknownTenant);
        }
        match reply_to(alloc, request) {
            Ok(reply) => reply,
            Err(_) => Reply::Refused(Fault::NoRoom),
        }
    }

    fn settle(&mut self) -> Result<(), Unsettled> {
        if self.asked > self.most {
            Err(Unsettled::Failed)
        } else {
            Ok(())
        }
    }
}

/// No connection, and a handler that wasn't asked yet.
pub fn sessions(alloc: Global) -> Sessions<Counting>
    ensures { (id : ℕ) → connection_at result id ≡ None }
{
    sessions_with_most(alloc, usize::MAX)
}

/// The same with a handler that fails to settle where it was asked more often.
pub fn sessions_with_most(alloc: Global, most: usize) -> Sessions<Counting>
    ensures { (id : ℕ) → connection_at result id ≡ None }
{
    Sessions::new(alloc, Counting { asked: 0, most })
}
