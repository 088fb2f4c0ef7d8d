//! The versions of the classic format.

ghost use Rattle.std.specs.Prelude.{◌≡◌};

/// A version of the classic format: CDF-1, CDF-2 (64-bit offsets) or CDF-5 (64-bit data).
#[derive(Clone, Copy, Debug, PartialEq, Eq)]
pub enum Version {
    V1,
    V2,
    V5,
}

impl Version {
    ghost use Rattle.ncc_values.specs.Version.{byte_of, version_of, count_width_of, offset_width_of};

    /// The version whose byte this is, the fourth of a file.
    pub fn from_byte(byte: u8) -> Option<Version>
        ensures { result ≡ version_of byte }
    {
        match byte {
            1 => Some(Version::V1),
            2 => Some(Version::V2),
            5 => Some(Version::V5),
            _ => None,
        }
    }

    /// The byte of the version, the fourth of a file.
    pub fn byte(self) -> u8
        ensures { result ≡ byte_of self }
    {
        match self {
            Version::V1 => 1,
            Version::V2 => 2,
            Version::V5 => 5,
        }
    }

    /// The bytes of a count, a length, a dimension number and a vsize.
    pub fn count_width(self) -> usize
        ensures { result ≡ count_width_of self }
    {
        match self {
            Version::V1 | Version::V2 => 4,
            Version::V5 => 8,
        }
    }

    /// The bytes of a begin, the offset of a variable's data.
    pub fn offset_width(self) -> usize
        ensures { result ≡ offset_width_of self }
    {
        match self {
            Version::V1 => 4,
            Version::V2 | Version::V5 => 8,
        }
    }
}
