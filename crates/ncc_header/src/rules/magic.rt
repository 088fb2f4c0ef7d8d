//! The rule magic = 'C' 'D' 'F' VERSION: what is judged, and the steps over its fields.

ghost use Rattle.std.specs.Prelude.{◌≡◌, unwrap_or, IfOk, length};
ghost use Rattle.ncc_values.specs.Version.{version_of};
ghost use Rattle.ncc_values.specs.declared.version.Version.TheVariants.{V1};
ghost use Rattle.ncc_header.specs.Fields.{magic_wrong, version_wrong};
ghost use Rattle.ncc_header.specs.Steps.{Judges, Steps};
ghost use Rattle.ncc_header.specs.declared.partial.Next.TheVariants as nexts;

use crate::fault::{FaultKind, StepError, Wrong};
use crate::judge::refuse;
use crate::partial::{Next, Partial};
use ncc_values::{Version, number};

/// The letters C, D and F.
const MAGIC: u64 = 0x434446;

/// magic = **'C' 'D' 'F'** VERSION
pub fn judge_magic(n: u64) -> Result<(), Wrong>
    ensures { Judges (magic_wrong n) result }
{
    if n != MAGIC {
        return refuse(FaultKind::BadMagic);
    }
    Ok(())
}

/// The letters: magic = **'C' 'D' 'F'** VERSION
pub fn after_magic(partial: &Partial, at: u64, front: &[u8]) -> Result<Next, StepError>
    requires { length front.now ≡ 3 }
    ensures { Steps nexts.Magic partial.now at front.now result partial.now }
{
    judge_magic(number(front))?;
    Ok(Next::VersionByte)
}

/// magic = 'C' 'D' 'F' **VERSION**, with VERSION = 1 | 2 | 5
pub fn judge_version(n: u64) -> Result<Version, Wrong>
    ensures judged { Judges (version_wrong n) result }
    ensures value { IfOk result (λ v. unwrap_or (version_of n) V1 ≡ v) }
{
    if n == 1 {
        return Ok(Version::V1);
    }
    if n == 2 {
        return Ok(Version::V2);
    }
    if n == 5 {
        return Ok(Version::V5);
    }
    refuse(FaultKind::BadVersion)
}

/// The version: magic = 'C' 'D' 'F' **VERSION**
pub fn after_version(partial: &mut Partial, at: u64, front: &[u8]) -> Result<Next, StepError>
    requires { length front.now ≡ 1 }
    ensures { Steps nexts.VersionByte partial.old at front.now result partial.new }
{
    partial.lists.parts.version = judge_version(number(front))?;
    Ok(Next::NumRecs)
}
