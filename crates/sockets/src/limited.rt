//! A socket that waits only so long.

use std::io::{self, ErrorKind, Read, Write};
use std::net::TcpStream;
use std::time::{Clock, Duration, Instant};

/// A socket each of whose reads and writes fails where it would wait too long, or would begin too late.
#[derive(Drop)]
pub struct Limited<'a, C> {
    clock: &'a C,
    stream: &'a TcpStream,
    until: Instant,
}

impl<'a, C: Clock> Limited<'a, C> {
    /// The socket, none of whose reads and writes waits longer than `wait`, or begins later than `whole` from now.
    pub(crate) fn new(
        clock: &'a C,
        stream: &'a TcpStream,
        wait: Duration,
        whole: Duration,
    ) -> io::Result<Limited<'a, C>> {
        stream.set_read_timeout(Some(wait))?;
        stream.set_write_timeout(Some(wait))?;
        match Instant::now(clock)?.checked_add(whole) {
            Some(until) => Ok(Limited {
                clock,
                stream,
                until,
            }),
            None => Err(io::Error::from(ErrorKind::TimedOut)),
        }
    }

    /// An error where it is too late.
    fn check_time(&self) -> io::Result<()> {
        if Instant::now(self.clock)? < self.until {
            Ok(())
        } else {
            Err(io::Error::from(ErrorKind::TimedOut))
        }
    }
}

impl<C: Clock> Read for Limited<'_, C> {
    fn read(&mut self, buffer: &mut [u8]) -> io::Result<usize> {
        self.check_time()?;
        let mut stream = self.stream;
        stream.read(buffer)
    }
}

impl<C: Clock> Write for Limited<'_, C> {
    fn write(&mut self, bytes: &[u8]) -> io::Result<usize> {
        self.check_time()?;
        let mut stream = self.stream;
        stream.write(bytes)
    }

    fn flush(&mut self) -> io::Result<()> {
        Ok(())
    }
}
