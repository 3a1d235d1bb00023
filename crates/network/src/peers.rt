//! The other sides of connections over memory.

ghost use Rattle.std.specs.Prelude.{◌≡◌, ◌≤◌, IfOk, IfSome, length};
ghost use Rattle.network.specs.Clients.{client_behind};

use crate::clients::Client;
use crate::networks::Broken;
use crate::scenes::Happening;
use std::alloc::{AllocError, Global};
use std::collections::VecDeque;

/// The other side of a connection.
#[derive(Drop)]
pub struct Peer<'a> {
    pub arrived: VecDeque<&'a [u8]>,
    pub has_ended: bool,
    pub is_broken: bool,
    pub room: usize,
    pub written: Vec<u8>,
    pub client: Client,
    pub is_closed: bool,
}

impl<'a> Peer<'a> {
    /// One that is still to come.
    pub fn new(alloc: Global) -> Peer<'a>
        ensures { result.client ≡ Client.Absent }
    {
        Peer {
            arrived: VecDeque::new(alloc),
            has_ended: false,
            is_broken: false,
            room: usize::MAX,
            written: Vec::new(alloc),
            client: Client::Absent,
            is_closed: false,
        }
    }

    /// Something happens on its connection.
    pub fn meet(&mut self, happening: Happening<'a>) -> Result<(), AllocError>
        ensures { self.new.client ≡ self.old.client }
    {
        match happening {
            Happening::Arrives(_, bytes) => self.arrived.push_back(bytes.as_bytes())?,
            Happening::Ends(_) => self.has_ended = true,
            Happening::Takes(_, room) => self.room = room,
            Happening::Breaks(_) => self.is_broken = true,
            _ => {}
        }
        Ok(())
    }

    /// Bytes of one arrival.
    pub fn read(&mut self, buffer: &mut [u8]) -> Result<Option<usize>, Broken>
        ensures fits { IfOk result (λ n. IfSome n (λ count. count ≤ length buffer.new)) }
        ensures client { self.new.client ≡ client_behind result self.old.client }
    {
        if self.is_broken {
            self.client = self.client.failed();
            return Err(Broken);
        }
        let Some(front) = self.arrived.pop_front() else {
            return Ok(if self.has_ended { Some(0) } else { None });
        };
        let count = front.len().min(buffer.len());
        buffer[..count].copy_from_slice(&front[..count]);
        if count < front.len() && self.arrived.push_front(&front[count..]).is_err() {
            self.is_broken = true;
        }
        Ok(Some(count))
    }

    /// As many bytes as there is room for.
    pub fn write(&mut self, bytes: &[u8]) -> Result<Option<usize>, Broken>
        ensures fits { IfOk result (λ n. IfSome n (λ count. count ≤ length bytes.now)) }
        ensures client { self.new.client ≡ client_behind result self.old.client }
    {
        if self.is_broken {
            self.client = self.client.failed();
            return Err(Broken);
        }
        if self.room == 0 {
            return Ok(None);
        }
        let count = bytes.len().min(self.room);
        match self.written.extend_from_slice(&bytes[..count]) {
            Ok(()) => {
                if self.room < usize::MAX {
                    self.room -= count;
                }
                Ok(Some(count))
            }
            Err(_) => {
                self.client = self.client.failed();
                Err(Broken)
            }
        }
    }
}
