//! What is known of the bytes that a client sends.

ghost use Rattle.std.specs.Prelude.{◌≡◌, ◌≢◌, ◌↔◌, true, IsTrue};

/// What is known of the bytes that a client sends.
#[derive(Clone, Copy, Debug)]
pub enum Supply {
    /// Some may have come that weren't read.
    Unknown,
    /// All that had come were read, and nothing was told since: what comes next will be told.
    Drained,
    /// It was told of an end, of a failure or of urgent data, each of which ends a read early: fewer bytes than there was
    /// room for say nothing.
    Interrupted,
}

impl Supply {
    /// What is known once some bytes were read: all that had come, where these were fewer than there was room for.
    pub(crate) fn read(self, is_short: bool) -> Supply
        ensures drained { result ≡ Supply.Drained → is_short ≡ true }
        ensures interrupted { self ≡ Supply.Interrupted → result ≡ Supply.Interrupted }
    {
        match self {
            Supply::Interrupted => Supply::Interrupted,
            Supply::Unknown | Supply::Drained if is_short => Supply::Drained,
            Supply::Unknown | Supply::Drained => Supply::Unknown,
        }
    }

    /// What is known once the system told something, and with `interrupts` what ends a read early.
    pub(crate) fn told(self, interrupts: bool) -> Supply
        ensures undrained { result ≢ Supply.Drained }
        ensures interrupts { interrupts ≡ true → result ≡ Supply.Interrupted }
        ensures interrupted { self ≡ Supply.Interrupted → result ≡ Supply.Interrupted }
    {
        match self {
            Supply::Interrupted => Supply::Interrupted,
            Supply::Unknown | Supply::Drained if interrupts => Supply::Interrupted,
            Supply::Unknown | Supply::Drained => Supply::Unknown,
        }
    }

    /// Whether what comes next will be told.
    pub(crate) fn is_drained(self) -> bool
        ensures { IsTrue result ↔ (self ≡ Supply.Drained) }
    {
        match self {
            Supply::Drained => true,
            Supply::Unknown | Supply::Interrupted => false,
        }
    }
}
