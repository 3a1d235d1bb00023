//! The end of a connection on a socket.

use crate::limited::Limited;
use crate::tuning::MOST_READS;
use std::io::Read;
use std::net::{Shutdown, TcpStream};
use std::time::{Clock, Duration};

/// Ends what is sent, and then reads on for a short while: a socket that is dropped with bytes unread is reset, and the
/// last reply may be lost with it.
pub(crate) fn part<C: Clock>(clock: &C, stream: &TcpStream, parting: Duration) {
    if stream.shutdown(Shutdown::Write).is_err() {
        return;
    }
    match Limited::new(clock, stream, parting, parting) {
        Ok(mut reader) => drain(&mut reader),
        Err(_) => {}
    }
}

/// Reads what comes and lets it go, up to its end or a failure, in a bounded number of reads.
fn drain<R: Read>(reader: &mut R) {
    let mut room = [0; 4096];
    for _ in 0..MOST_READS {
        match reader.read(&mut room) {
            Ok(0) | Err(_) => return,
            Ok(_) => {}
        }
    }
}
