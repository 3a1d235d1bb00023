//! What answers requests.
ghost use Rattle.std.specs.Prelude.{◌≡◌, ◌⊎◌, ⊤, OnOk, OnErr};
ghost use Rattle.definitions.specs.Values.{Text};
ghost use Rattle.definitions.specs.Registries.{Request, Reply};
ghost use Rattle.requests.specs.Views.{request_view, reply_view};
ghost use Rattle.connections.specs.Found.{FindsNoMore, FindsOnly};

use request_heads::Method;
use requests as asked;
use std::alloc::Global;

/// A whole request that was answered, and its reply.
#[derive(Clone, Copy)]
pub struct Exchange<'a> {
    /// The tenant's key that the request tells; the empty one is no tenant's.
    pub key: &'a str,
    pub method: Method,
    /// The target, as it was sent.
    pub target: &'a [u8],
    /// All bytes of the reply, its head first.
    pub reply: &'a [u8],
}

/// Why what was answered couldn't be made durable.
#[derive(Clone, Copy, Debug, Drop, PartialEq)]
pub enum Unsettled {
    /// Memory lacked.
    NoRoom,
    /// There is no room where it is kept.
    Full,
    /// A call of the system failed.
    Failed,
    /// An earlier change couldn't be written, so that what is kept is behind what was answered.
    Behind,
}

/// Whatever answers requests.
pub trait Handler {
    /// What decides its answers, such as the registries.
    ghost State: { Type 0 };

    /// What decides the answers of this one.
    ghost state: { Self → State };

    /// From one state a request with this key may be answered so, and leave the other state.
    ghost answers: { State → Text → Request → Reply → State → Type 0 };

    /// After a crash at this moment an opening may find this state.
    ghost finds: { Self → State → Type 0 };

    /// It keeps what it answered; one that keeps nothing (`⊥`) never fails to settle.
    ghost keeps: { Type 0 } = { ⊤ };

    /// Answers a request with a key. Want of memory is a reply like any other. What an opening may find stays.
    fn apply(&mut self, alloc: Global, key: &str, request: &asked::Request<'_>) -> asked::Reply
        ensures answered { answers (state self.old) key.now (request_view request.now)
            (reply_view result) (state self.new) }
        ensures found { FindsNoMore finds self.old self.new };

    /// Makes durable what was answered: an opening finds this state alone then. Where that fails, nothing that was answered
    /// since the last time may be told; an opening may find what it might have found before, or this state.
    fn settle(&mut self) -> Result<(), Unsettled>
        ensures state { state self.new ≡ state self.old }
        ensures kept { OnOk result (FindsOnly finds self.new (state self.new)) }
        ensures crash { (s : State) → finds self.new s
            → finds self.old s ⊎ (s ≡ state self.old) }
        ensures err { OnErr result keeps };

    /// Takes a reply back once it was told, or couldn't be told: its memory may be used for the next one. This changes nothing
    /// that is answered.
    fn reuse(&mut self, _reply: asked::Reply)
        ensures state { state self.new ≡ state self.old }
        ensures found { FindsNoMore finds self.old self.new }
    {}

    /// How many changes were granted up to now, modulo 2^64: where it grows, the next settle has something to do. This decides
    /// nothing that is answered.
    fn changes(&self) -> u64 {
        0
    }

    /// What is noted from here on is of this connection: a piece of its stream is taken. This changes nothing that is
    /// answered.
    fn take_up(&self, _connection: u64) {}

    /// Notes that a request was answered, also one whose target is no route's, which isn't asked. This changes nothing
    /// that is answered.
    fn note(&self, _exchange: &Exchange<'_>) {}
}
