//! Who is told how connections go.

use network::Fault;

/// Who is told how connections go. What it does decides nothing.
pub trait Observer {
    /// A connection was opened.
    fn opened(&mut self, id: u64);

    /// A connection that was opened has ended: by a fault, or at its end.
    ///
    /// - [`Fault::ReadFailed`] where a read failed, or the connection took too long with nothing to be sent.
    /// - [`Fault::WriteFailed`] where a write failed or took nothing, or the connection took too long to take its replies.
    /// - [`Fault::NoRoom`] where memory lacked.
    fn ended(&mut self, id: u64, fault: Option<&Fault>);
}
