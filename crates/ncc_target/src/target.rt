//! Where a new file is made.

ghost use Rattle.std.specs.Prelude.{◌≡◌, ◌⊎◌, ◌+◌, ◌≤◌, Bool, true, false, ℕ, List, [], Option, None, Some, IsTrue, IfOk, OnOk, OnErr};
ghost use Rattle.ncc_values.specs.Failures.{last_count, joint_count, Rose, Counts};
ghost use Rattle.ncc_target.specs.Names.{NameElapses, new_part, after_link, Links, LinkCounts};

use crate::entries::{Entries, Entry, Linked};
use ncc_schema::Sink;
use ncc_store::Device;

/// A file that is to have a name, and its part: the same file under another name, by which it is made. Each method is
/// one call of the system. One that fails answers `Device`, is counted and changes no name.
pub trait Target {
    ghost use Rattle.ncc_target.specs.declared.entries.Entries.{Entries};

    /// What the part is written through, from its first byte.
    type Out: Sink + Drop;

    /// Whether it tells the bytes of the part, and what stands under the name. Where it doesn't, nothing is said of
    /// them.
    ghost tells_bytes: { Bool };

    /// The bytes of the part that was closed last.
    ghost part: { Self → Option (List ℕ) };

    /// What stands under the name: no file, or one of these bytes.
    ghost named: { Self → Option (List ℕ) };

    /// What a stop at this moment may leave there.
    ghost names: { Self → Option (List ℕ) → Type 0 };

    /// The moment, as a number that doesn't fall.
    ghost moment: { Self → ℕ };

    /// What a stop at some moment from that one on might have left there, during a call or between two.
    ghost names_since: { Self → ℕ → Option (List ℕ) → Type 0 };

    /// What it made since its part was made last.
    ghost entries: { Self → Entries };

    /// How often it failed, and what its parts were written through. The count stays at 2^64 - 1.
    ghost failures: { Self → ℕ };

    /// A number that grows by at most one where a part is made, so that a caller can bound how many are.
    ghost makes: { Self → ℕ };

    /// What it made since its part was made last.
    fn made(&self) -> Entries
        ensures { result ≡ entries self.now };

    /// Looks whether no file has the name; `Device` also where one has.
    fn look(&mut self) -> Result<(), Device>
        ensures ok { OnOk result (named self.old ≡ None) }
        ensures part { part self.new ≡ part self.old }
        ensures named { named self.new ≡ named self.old }
        ensures names { NameElapses names moment names_since self.old self.new (names self.old) }
        ensures entries { entries self.new ≡ entries self.old }
        ensures count { Counts (failures self.old) (failures self.new) result }
        ensures makes { makes self.new ≡ makes self.old };

    /// Makes the part, without a byte; `Device` also where a file has its name.
    fn make_part(&mut self) -> Result<Self::Out, Device>
        ensures empty { IsTrue tells_bytes → IfOk result (λ out. Self.Out.put out ≡ Some []) }
        ensures fresh { IfOk result (λ out. Self.Out.failures out ≡ 0) }
        ensures named { named self.new ≡ named self.old }
        ensures names { NameElapses names moment names_since self.old self.new (names self.old) }
        ensures ok { OnOk result (entries self.new ≡ new_part) }
        ensures err { OnErr result (entries self.new ≡ entries self.old) }
        ensures count { Counts (failures self.old) (failures self.new) result }
        ensures makes { makes self.new ≤ makes self.old + 1 }
        ensures none { OnErr result (makes self.new ≡ makes self.old) };

    /// Closes the part.
    fn close_part(&mut self, out: Self::Out)
        ensures part { part self.new ≡ Self.Out.put out }
        ensures named { named self.new ≡ named self.old }
        ensures names { NameElapses names moment names_since self.old self.new (names self.old) }
        ensures entries { entries self.new ≡ entries self.old }
        ensures count { failures self.new ≡ joint_count (failures self.old) (Self.Out.failures out) }
        ensures makes { makes self.new ≡ makes self.old };

    /// Brings the bytes of the part to the disk, and closes it, also where that fails.
    fn settle_part(&mut self, out: Self::Out) -> Result<(), Device>
        ensures part { part self.new ≡ Self.Out.put out }
        ensures named { named self.new ≡ named self.old }
        ensures names { NameElapses names moment names_since self.old self.new (names self.old) }
        ensures ok { OnOk result (entries self.new ≡ record (entries self.old) { settled = true }) }
        ensures err { OnErr result (entries self.new ≡ entries self.old) }
        ensures count { OnOk result (failures self.new ≡ joint_count (failures self.old) (Self.Out.failures out)) }
        ensures rose { OnErr result (Rose (failures self.old) (failures self.new)) }
        ensures makes { makes self.new ≡ makes self.old };

    /// Gives the part the name too, where no file has it. That the file system has no second names isn't counted as a
    /// failure.
    fn link(&mut self) -> Linked
        requires part { (entries self.old).part ≡ Entry.Made }
        requires settled { (entries self.old).settled ≡ true }
        ensures part { part self.new ≡ part self.old }
        ensures named { Links (part self.old) (named self.old) (named self.new) result }
        ensures names { NameElapses names moment names_since self.old self.new
            (λ c. names self.old c ⊎ (c ≡ part self.old)) }
        ensures entries { entries self.new ≡ after_link (entries self.old) result }
        ensures count { LinkCounts (failures self.old) (failures self.new) result }
        ensures makes { makes self.new ≡ makes self.old };

    /// Makes a file of the name, without a byte, where the part was given none; `Device` also where a file has the
    /// name.
    fn claim(&mut self) -> Result<(), Device>
        requires { (entries self.old).unlinked ≡ true }
        ensures part { part self.new ≡ part self.old }
        ensures free { OnOk result (named self.old ≡ None) }
        ensures empty { IsTrue tells_bytes → OnOk result (named self.new ≡ Some []) }
        ensures err { OnErr result (named self.new ≡ named self.old) }
        ensures names { NameElapses names moment names_since self.old self.new
            (λ c. names self.old c ⊎ (c ≡ Some [])) }
        ensures made { OnOk result (entries self.new ≡ record (entries self.old) { name = Entry.Made }) }
        ensures none { OnErr result (entries self.new ≡ entries self.old) }
        ensures count { Counts (failures self.old) (failures self.new) result }
        ensures makes { makes self.new ≡ makes self.old };

    /// Gives the part the name in place of its own, and of the file that has it, where the part was given none. (Of two
    /// names of one file a rename leaves both.)
    fn rename(&mut self) -> Result<(), Device>
        requires unlinked { (entries self.old).unlinked ≡ true }
        requires part { (entries self.old).part ≡ Entry.Made }
        requires settled { (entries self.old).settled ≡ true }
        requires claimed { (entries self.old).name ≡ Entry.Made }
        ensures part { part self.new ≡ part self.old }
        ensures ok { OnOk result (named self.new ≡ part self.old) }
        ensures err { OnErr result (named self.new ≡ named self.old) }
        ensures names { NameElapses names moment names_since self.old self.new
            (λ c. names self.old c ⊎ (c ≡ part self.old)) }
        ensures gone { OnOk result (entries self.new ≡ record (entries self.old) { part = Entry.Absent }) }
        ensures stays { OnErr result (entries self.new ≡ entries self.old) }
        ensures count { Counts (failures self.old) (failures self.new) result }
        ensures makes { makes self.new ≡ makes self.old };

    /// Removes the part's own name. It is tried first to remove a name that was claimed for it: if the program is killed
    /// between the two, the part is left, and not a file without a byte under the name.
    fn remove_part(&mut self) -> Result<(), Device>
        requires part { (entries self.old).part ≡ Entry.Made }
        requires order { (entries self.old).unlinked ≡ true → (entries self.old).name ≡ Entry.Made → ⊥ }
        ensures part { part self.new ≡ part self.old }
        ensures named { named self.new ≡ named self.old }
        ensures names { NameElapses names moment names_since self.old self.new (names self.old) }
        ensures gone { OnOk result (entries self.new ≡ record (entries self.old) { part = Entry.Absent }) }
        ensures stuck { OnErr result (entries self.new ≡ record (entries self.old) { part = Entry.Stuck }) }
        ensures count { Counts (failures self.old) (failures self.new) result }
        ensures makes { makes self.new ≡ makes self.old };

    /// Removes the name that the target gave.
    fn remove_name(&mut self) -> Result<(), Device>
        requires { (entries self.old).name ≡ Entry.Made }
        ensures part { part self.new ≡ part self.old }
        ensures ok { OnOk result (named self.new ≡ None) }
        ensures err { OnErr result (named self.new ≡ named self.old) }
        ensures names { NameElapses names moment names_since self.old self.new
            (λ c. names self.old c ⊎ (c ≡ None)) }
        ensures gone { OnOk result (entries self.new ≡ record (entries self.old) { name = Entry.Absent }) }
        ensures stuck { OnErr result (entries self.new ≡ record (entries self.old) { name = Entry.Stuck }) }
        ensures count { Counts (failures self.old) (failures self.new) result }
        ensures makes { makes self.new ≡ makes self.old };

    /// Brings what stands under the name to the disk.
    fn settle_folder(&mut self) -> Result<(), Device>
        ensures durable { OnOk result ((c : Option (List ℕ)) → names self.new c → c ≡ named self.new) }
        ensures part { part self.new ≡ part self.old }
        ensures named { named self.new ≡ named self.old }
        ensures names { NameElapses names moment names_since self.old self.new (names self.old) }
        ensures entries { entries self.new ≡ entries self.old }
        ensures count { Counts (failures self.old) (failures self.new) result }
        ensures makes { makes self.new ≡ makes self.old };

    /// What stands under the name is what a stop may leave.
    ghost stands: { (target : Self) → IsTrue tells_bytes → names target (named target) };

    /// This moment is one of those since an earlier one.
    ghost counts_now: { (target : Self) (t : ℕ) (c : Option (List ℕ)) → t ≤ moment target → names target c
        → names_since target t c };

    /// Since this moment there is no other.
    ghost only_now: { (target : Self) (c : Option (List ℕ)) → names_since target (moment target) c → names target c };

    /// The count has an end.
    ghost at_most_last: { (target : Self) → failures target ≤ last_count };
}
