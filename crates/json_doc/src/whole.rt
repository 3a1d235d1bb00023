//! Whole numbers that 64 bits hold.

ghost use Rattle.std.specs.Prelude.{◌≡◌, ◌<◌, ◌^◌, pos, negsuc, true};
ghost use Rattle.definitions.specs.Values.{fits_64_bits};
ghost use Rattle.json_doc.specs.Wholes.{as_natural};

use std::marker::Model;

/// A whole number from -2^63 to 2^64 - 1: what 64 bits hold, with or without a sign.
///
/// Contracts see the number itself.
#[derive(Clone, Copy, Debug, Drop, PartialEq, Eq)]
pub struct Whole {
    // The number, or below zero the distance from -1.
    distance: u64,
    is_negative: bool,
}

impl Model for Whole {
    ghost use Rattle.std.specs.Prelude.{◌≡◌, ◌<◌, ◌^◌, ℤ, true};
    ghost use Rattle.json_doc.specs.Wholes.{number_of, distance_of, is_below_zero};

    ghost Value = { ℤ };

    ghost view = { λ w. number_of w.is_negative w.distance };

    ghost invariant = { λ w. w.is_negative ≡ true → w.distance < 2 ^ 63 };

    ghost inverse = { λ z. record { distance = distance_of z; is_negative = is_below_zero z } };
}

impl Whole {
    /// The number.
    pub fn of(natural: u64) -> Whole
        ensures { result ≡ pos natural }
    {
        Whole {
            distance: natural,
            is_negative: false,
        }
    }

    /// The number, which may be below zero.
    pub fn of_signed(number: i64) -> Whole
        ensures { result ≡ number }
    {
        if number < 0 {
            Whole::below_zero((-1 - number) as u64)
        } else {
            Whole::of(number as u64)
        }
    }

    /// The number that is so far below -1.
    pub(crate) fn below_zero(distance: u64) -> Whole
        requires { distance < 2 ^ 63 }
        ensures { result ≡ negsuc distance }
    {
        Whole {
            distance,
            is_negative: true,
        }
    }

    /// The number, if it is not below zero.
    pub fn as_u64(self) -> Option<u64>
        ensures { result ≡ as_natural self }
    {
        if self.is_negative {
            None
        } else {
            Some(self.distance)
        }
    }

    /// The number itself.
    pub fn number(self) -> i128
        ensures number { result ≡ self }
        ensures fits { fits_64_bits self ≡ true }
    {
        let distance = i128::from(self.distance);
        if self.is_negative {
            -1 - distance
        } else {
            distance
        }
    }
}
