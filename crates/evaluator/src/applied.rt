//! What a keyword applied.

ghost use Rattle.std.specs.Prelude.{◌≡◌, ◌+◌, ◌<◌, ◌^◌, if◌then◌else◌};

/// How many schemas a keyword applied, and how many of them passed.
#[derive(Clone, Copy, Debug, PartialEq, Eq)]
pub(crate) struct Applied {
    pub(crate) number: u64,
    pub(crate) passing: u64,
}

impl Applied {
    /// Nothing was applied.
    pub(crate) fn none() -> Applied
        ensures { result ≡ record { number = 0; passing = 0 } }
    {
        Applied {
            number: 0,
            passing: 0,
        }
    }

    /// These and one more, which passed or not.
    pub(crate) fn and(self, valid: bool) -> Applied
        requires number { self.number + 1 < 2 ^ 64 }
        requires passing { self.passing + 1 < 2 ^ 64 }
        ensures { result ≡ record {
          number = self.number
              + 1;
          passing = (if valid then self.passing + 1 else self.passing);
        } }
    {
        Applied {
            number: self.number + 1,
            passing: if valid {
                self.passing + 1
            } else {
                self.passing
            },
        }
    }
}
