//! How many texts were valid, invalid and refused.

ghost use Rattle.std.specs.Prelude.{◌≡◌, ◌≢◌, ◌≤◌};
ghost use Rattle.file_checks.specs.Tallies.{status_of};

/// What came of a text.
#[derive(Clone, Copy, Debug, PartialEq, Eq)]
pub enum Verdict {
    Valid,
    Invalid,
    /// There is no answer.
    Refused,
}

/// How many texts were valid, invalid and refused. The numbers stop at 2^64 - 1.
#[derive(Clone, Copy, Debug, PartialEq, Eq)]
pub struct Tally {
    pub valid: u64,
    pub invalid: u64,
    pub refused: u64,
}

impl Tally {
    /// Before the first.
    pub fn new() -> Tally
        ensures { result ≡ record { valid = 0; invalid = 0; refused = 0 } }
    {
        Tally {
            valid: 0,
            invalid: 0,
            refused: 0,
        }
    }

    /// One more.
    pub fn add(&mut self, verdict: Verdict)
        ensures refused { verdict ≡ Verdict.Refused → self.new.refused ≢ 0 }
        ensures invalid { verdict ≡ Verdict.Invalid → self.new.invalid ≢ 0 }
        ensures keeps { self.old.refused ≤ self.new.refused }
        ensures keeps_invalid { self.old.invalid ≤ self.new.invalid }
        ensures valid { verdict ≡ Verdict.Valid → (self.new.refused ≡ self.old.refused)
            × (self.new.invalid ≡ self.old.invalid) }
        ensures alone { verdict ≡ Verdict.Invalid → self.new.refused ≡ self.old.refused }
    {
        match verdict {
            Verdict::Valid => self.valid = self.valid.saturating_add(1),
            Verdict::Invalid => self.invalid = self.invalid.saturating_add(1),
            Verdict::Refused => self.refused = self.refused.saturating_add(1),
        }
    }

    /// How many there were, up to 2^64 - 1.
    pub fn total(&self) -> u64 {
        self.valid
            .saturating_add(self.invalid)
            .saturating_add(self.refused)
    }

    /// The status of a program that met these: 2 where one was refused, else 1 where one was invalid, and else 0.
    pub fn status(&self) -> u8
        ensures { result ≡ status_of self.now.invalid self.now.refused }
    {
        if self.refused > 0 {
            return 2;
        }
        if self.invalid > 0 {
            return 1;
        }
        0
    }
}
