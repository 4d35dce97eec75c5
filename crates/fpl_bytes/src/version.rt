ghost use Rattle.std.specs.Prelude.{◌≡◌};
ghost use Rattle.fpl_bytes.specs.Numbers.{limit_of, version_of};

/// The versions of the format. The second is written; both are read.
#[derive(Clone, Copy, Debug, PartialEq, Eq)]
pub enum Version {
    /// Fractions in parts of 8 bytes; no number of origins.
    One,
    /// Fractions in parts of 16 bytes; the number of origins stands first in a section.
    Two,
}

impl Version {
    /// The version that a byte names: the first by 1, the second by every other.
    pub fn of(number: u8) -> Version
        ensures { result ≡ version_of number }
    {
        if number == 1 {
            Version::One
        } else {
            Version::Two
        }
    }

    /// The greatest magnitude of a part of a fraction.
    pub fn limit(self) -> u128
        ensures { result ≡ limit_of self }
    {
        match self {
            Version::One => i64::MAX as u128,
            Version::Two => i128::MAX as u128,
        }
    }
}
