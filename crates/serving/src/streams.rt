//! What bytes are read from and written to.

ghost use Rattle.std.specs.Prelude.{◌≡◌, ◌≤◌, List, [], ◌∷◌, ◌++◌, IfOk, length};
ghost use Rattle.serving.specs.Transfers.{Transfer, transfer_of};

use network::Broken;

/// Whatever gives bytes. Contracts know what each of its reads gave.
pub trait ByteReader {
    /// What the reads up to now gave, in order.
    ghost reads: { Self → List Transfer };

    /// Reads some bytes into the front of a buffer, and answers how many; none at the end of the bytes.
    fn read(&mut self, buffer: &mut [u8]) -> Result<usize, Broken>
        ensures fits { IfOk result (λ n. n ≤ length buffer.new) }
        ensures told { reads self.new ≡ reads self.old ++ (transfer_of result buffer.new ∷ []) };
}

/// Whatever takes bytes. Contracts know what each of its writes took.
pub trait ByteWriter {
    /// What the writes up to now took, in order.
    ghost writes: { Self → List Transfer };

    /// Takes some of the first of the bytes, and answers how many.
    fn write(&mut self, bytes: &[u8]) -> Result<usize, Broken>
        ensures fits { IfOk result (λ n. n ≤ length bytes.now) }
        ensures told { writes self.new ≡ writes self.old ++ (transfer_of result bytes.now ∷ []) };
}
