//! What happens on connections over memory.

ghost use Rattle.std.specs.Prelude.{◌≡◌, ◌≢◌, ◌≤◌, true, false, ℕ, Some, IfOk, IfSome, length};
ghost use Rattle.network.specs.Clients.{failed, client_behind, OthersAreSame};

use crate::clients::Client;
use crate::networks::{Broken, Occasion};
use crate::peers::Peer;
use std::alloc::{AllocError, Global};
use std::collections::{BTreeMap, VecDeque};

/// What happens on a connection over memory, told by its number.
#[derive(Clone, Copy, Drop)]
pub enum Happening<'a> {
    /// A client comes.
    Opens(u64),
    /// Bytes of its stream arrive. A read gives bytes of one arrival.
    Arrives(u64, &'a str),
    /// Its stream ends.
    Ends(u64),
    /// So many bytes more can be written; before the first of these any number can.
    Takes(u64, usize),
    /// Each further read and write fails.
    Breaks(u64),
    /// It is told ready, though nothing has changed.
    Stirs(u64),
    /// It took too long.
    Tires(u64),
    /// Nothing more is to be served.
    Ceases,
    /// What comes behind it happens once nobody is ready any more.
    Rests,
}

/// All connections over memory, and what is still to happen on them.
#[derive(Drop)]
pub struct Scene<'a> {
    alloc: Global,
    script: &'a [Happening<'a>],
    told: usize,
    occasions: VecDeque<Occasion>,
    later: VecDeque<u64>,
    peers: BTreeMap<u64, Peer<'a>>,
}

impl<'a> Scene<'a> {
    ghost use Rattle.network.specs.Scenes.{client_at, Stays};

    pub fn new(alloc: Global, script: &'a [Happening<'a>]) -> Scene<'a> {
        Scene {
            alloc,
            script,
            told: 0,
            occasions: VecDeque::new(alloc),
            later: VecDeque::new(alloc),
            peers: BTreeMap::new(alloc),
        }
    }

    // The client of a connection comes. Whether there is such a connection.
    fn greet(&mut self, id: u64) -> bool
        ensures comes { result ≡ true → client_at self.new id ≡ Client.Present }
        ensures none { result ≡ false → client_at self.new id ≡ client_at self.old id }
        ensures clients { OthersAreSame id (client_at self.old) (client_at self.new) }
    {
        match self.peers.get_mut(&id) {
            Some(peer) => {
                peer.client = Client::Present;
                true
            }
            None => false,
        }
    }

    // The client of a connection fails.
    fn fail(&mut self, id: u64)
        ensures client { client_at self.new id ≡ failed (client_at self.old id) }
        ensures clients { OthersAreSame id (client_at self.old) (client_at self.new) }
    {
        if let Some(peer) = self.peers.get_mut(&id) {
            peer.client = peer.client.failed();
        }
    }

    pub fn next(&mut self) -> Option<Occasion>
        ensures comes { (k : ℕ) → result ≡ Some (Occasion.Opens k)
            → client_at self.new k ≡ Client.Present }
        ensures late { (k : ℕ) → result ≡ Some (Occasion.Late k)
            → client_at self.new k ≡ failed (client_at self.old k) }
        ensures clients { (k : ℕ) → result ≢ Some (Occasion.Opens k)
            → result ≢ Some (Occasion.Late k) → client_at self.new k ≡ client_at self.old k }
    {
        match self.occasions.pop_front() {
            Some(Occasion::Opens(id)) => {
                if self.greet(id) {
                    Some(Occasion::Opens(id))
                } else {
                    None
                }
            }
            Some(Occasion::Late(id)) => {
                self.fail(id);
                Some(Occasion::Late(id))
            }
            other => other,
        }
    }

    // Tells what is next. Where memory lacks, the script is at its end.
    fn tell(&mut self, occasion: Occasion)
        ensures { Stays self.old self.new }
    {
        if self.occasions.push_back(occasion).is_err() {
            self.told = self.script.len();
        }
    }

    pub fn again(&mut self, id: u64)
        ensures { Stays self.old self.new }
    {
        self.tell(Occasion::Ready(id));
    }

    pub fn later(&mut self, id: u64)
        ensures { Stays self.old self.new }
    {
        if self.later.push_back(id).is_err() {
            self.told = self.script.len();
        }
    }

    // A connection begins, whose client is still to be told.
    fn begin(&mut self, id: u64) -> Result<(), AllocError>
        ensures { Stays self.old self.new }
    {
        if !self.peers.contains_key(&id) {
            self.peers.insert(id, Peer::new(self.alloc))?;
        }
        Ok(())
    }

    // Something happens on a connection, which is told ready.
    fn reach(&mut self, happening: Happening<'a>, id: u64) -> Result<(), AllocError>
        ensures { Stays self.old self.new }
    {
        if let Some(peer) = self.peers.get_mut(&id) {
            peer.meet(happening)?;
        }
        self.again(id);
        Ok(())
    }

    // Has what is next in the script happen. Whether what comes behind it happens at the same time.
    fn happen(&mut self, happening: Happening<'a>) -> Result<bool, AllocError>
        ensures { Stays self.old self.new }
    {
        match happening {
            Happening::Rests => return Ok(false),
            Happening::Ceases => self.tell(Occasion::Over),
            Happening::Tires(id) => self.tell(Occasion::Late(id)),
            Happening::Opens(id) => {
                self.begin(id)?;
                self.tell(Occasion::Opens(id));
            }
            Happening::Arrives(id, _)
            | Happening::Ends(id)
            | Happening::Takes(id, _)
            | Happening::Breaks(id)
            | Happening::Stirs(id) => self.reach(happening, id)?,
        }
        Ok(true)
    }

    // Tells those ready that were to be told later.
    fn recall(&mut self)
        ensures { Stays self.old self.new }
    {
        for _ in 0..self.later.len() {
            if let Some(id) = self.later.pop_front() {
                self.again(id);
            }
        }
    }

    // Has all happen up to the next rest.
    fn go_on(&mut self)
        ensures { Stays self.old self.new }
    {
        let script = self.script;
        for index in self.told..script.len() {
            self.told = index + 1;
            match self.happen(script[index]) {
                Ok(true) => {}
                Ok(false) => return,
                Err(_) => {
                    self.told = script.len();
                    return;
                }
            }
        }
    }

    /// Goes on where nobody is ready; at the end of the script all is over.
    pub fn wait(&mut self)
        ensures { Stays self.old self.new }
    {
        if !self.occasions.is_empty() {
            return;
        }
        if self.told >= self.script.len() {
            self.tell(Occasion::Over);
            return;
        }
        self.recall();
        self.go_on();
    }

    pub fn read(&mut self, id: u64, buffer: &mut [u8]) -> Result<Option<usize>, Broken>
        ensures fits { IfOk result (λ n. IfSome n (λ count. count ≤ length buffer.new)) }
        ensures client { client_at self.new id ≡ client_behind result (client_at self.old id) }
        ensures clients { OthersAreSame id (client_at self.old) (client_at self.new) }
    {
        match self.peers.get_mut(&id) {
            Some(peer) => peer.read(buffer),
            None => Err(Broken),
        }
    }

    pub fn write(&mut self, id: u64, bytes: &[u8]) -> Result<Option<usize>, Broken>
        ensures fits { IfOk result (λ n. IfSome n (λ count. count ≤ length bytes.now)) }
        ensures client { client_at self.new id ≡ client_behind result (client_at self.old id) }
        ensures clients { OthersAreSame id (client_at self.old) (client_at self.new) }
    {
        match self.peers.get_mut(&id) {
            Some(peer) => peer.write(bytes),
            None => Err(Broken),
        }
    }

    pub fn close(&mut self, id: u64)
        ensures client { client_at self.new id ≡ Client.Absent }
        ensures clients { OthersAreSame id (client_at self.old) (client_at self.new) }
    {
        if let Some(peer) = self.peers.get_mut(&id) {
            peer.client = Client::Absent;
            peer.is_closed = true;
        }
    }

    pub fn written(&self, id: u64) -> &[u8] {
        match self.peers.get(&id) {
            Some(peer) => &peer.written,
            None => &[],
        }
    }

    // How many bytes arrived that weren't read.
    pub fn unread(&self, id: u64) -> usize {
        let mut count: usize = 0;
        if let Some(peer) = self.peers.get(&id) {
            for bytes in peer.arrived.iter() {
                count = count.saturating_add(bytes.len());
            }
        }
        count
    }

    pub fn is_closed(&self, id: u64) -> bool {
        match self.peers.get(&id) {
            Some(peer) => peer.is_closed,
            None => false,
        }
    }
}
