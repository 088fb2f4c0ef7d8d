//! What the numbers of a header stay below.

ghost use Rattle.std.specs.Prelude.{◌≡◌, ◌+◌, ◌^◌};
ghost use Rattle.ncc_values.specs.Version.{count_width_of};
ghost use Rattle.ncc_schema.specs.Schema.{count_limit, length_limit, offset_limit, streaming_mark};

use ncc_values::Version;

/// What a number of items stays below.
pub fn limit_of_counts(version: Version) -> u64
    ensures { result ≡ count_limit version }
{
    match version {
        Version::V1 | Version::V2 => 1 << 31,
        Version::V5 => 1 << 63,
    }
}

/// What a dimension's length stays below.
pub fn limit_of_lengths(version: Version) -> u64
    ensures { result ≡ length_limit version }
{
    match version {
        Version::V1 | Version::V2 => 1 << 32,
        Version::V5 => 1 << 63,
    }
}

/// What the offset of a variable stays below.
pub fn limit_of_offsets(version: Version) -> u64
    ensures { result ≡ offset_limit version }
{
    match version {
        Version::V1 => 1 << 31,
        Version::V2 | Version::V5 => 1 << 63,
    }
}

/// The count of a file that is still written.
pub fn streaming_mark(version: Version) -> u64
    ensures { result ≡ streaming_mark version }
{
    match version {
        Version::V1 | Version::V2 => 0xffff_ffff,
        Version::V5 => 0xffff_ffff_ffff_ffff,
    }
}

/// The greatest vsize that its field holds.
pub fn greatest_vsize(version: Version) -> u64
    ensures { result + 1 ≡ 256 ^ count_width_of version }
{
    match version {
        Version::V1 | Version::V2 => u32::MAX as u64,
        Version::V5 => u64::MAX,
    }
}
