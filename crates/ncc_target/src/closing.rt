//! Making a new file whole, or not at all.

ghost use Rattle.std.specs.Prelude.{◌≡◌, ◌≢◌, ◌⊎◌, ◌+◌, ◌≤◌, true, false, ℕ, List, [], Option, None, Some, IsTrue, IfOk, OnOk, OnErr};
ghost use Rattle.ncc_values.specs.Failures.{joint_count, Rose, Counts};
ghost use Rattle.ncc_target.specs.Names.{NameElapses, new_part, MayLeave, IsUnnamed, IsGiven};

use crate::entries::{Entry, Linked};
use crate::target::Target;
use ncc_store::Device;

/// Makes the part, where no file has the name.
pub fn make<T: Target>(target: &mut T) -> Result<T::Out, Device>
    ensures free { OnOk result (T.named target.old ≡ None) }
    ensures empty { IsTrue T.tells_bytes → IfOk result (λ out. T.Out.put out ≡ Some []) }
    ensures fresh { IfOk result (λ out. T.Out.failures out ≡ 0) }
    ensures named { T.named target.new ≡ T.named target.old }
    ensures names { NameElapses T.names T.moment T.names_since target.old target.new (T.names target.old) }
    ensures ok { OnOk result (T.entries target.new ≡ new_part) }
    ensures err { OnErr result (T.entries target.new ≡ T.entries target.old) }
    ensures count { Counts (T.failures target.old) (T.failures target.new) result }
    ensures makes { T.makes target.new ≤ T.makes target.old + 1 }
    ensures none { OnErr result (T.makes target.new ≡ T.makes target.old) }
{
    target.look()?;
    target.make_part()
}

/// Gives the part the name, in place of its own.
fn name_part<T: Target>(target: &mut T) -> Result<(), Device>
    requires part { (T.entries target.old).part ≡ Entry.Made }
    requires name { (T.entries target.old).name ≡ Entry.Absent }
    requires settled { (T.entries target.old).settled ≡ true }
    ensures ok { OnOk result (T.named target.new ≡ T.part target.old) }
    ensures gone { OnOk result ((T.entries target.new).part ≡ Entry.Absent) }
    ensures made { OnOk result ((T.entries target.new).name ≡ Entry.Made) }
    ensures settled { (T.entries target.new).settled ≡ true }
    ensures given { IsTrue T.tells_bytes
        → IsGiven (T.named target.old) (T.named target.new) (T.part target.old) (T.entries target.new) }
    ensures names { NameElapses T.names T.moment T.names_since target.old target.new
        (MayLeave (T.names target.old) (λ c. c ≡ T.part target.old) (T.entries target.new)) }
    ensures count { Counts (T.failures target.old) (T.failures target.new) result }
    ensures makes { T.makes target.new ≡ T.makes target.old }
{
    match target.link() {
        Linked::Done => target.remove_part(),
        Linked::Failed => Err(Device),
        Linked::Refused => {
            target.claim()?;
            target.rename()
        }
    }
}

/// Brings the part to the disk, gives it the name, and brings that to the disk.
fn give<T: Target>(target: &mut T, out: T::Out) -> Result<(), Device>
    requires part { (T.entries target.old).part ≡ Entry.Made }
    requires name { (T.entries target.old).name ≡ Entry.Absent }
    ensures ok { OnOk result (T.named target.new ≡ T.Out.put out) }
    ensures durable { OnOk result ((c : Option (List ℕ)) → T.names target.new c → c ≡ T.named target.new) }
    ensures gone { OnOk result ((T.entries target.new).part ≡ Entry.Absent) }
    ensures made { OnOk result ((T.entries target.new).name ≡ Entry.Made) }
    ensures settled { OnOk result ((T.entries target.new).settled ≡ true) }
    ensures given { IsTrue T.tells_bytes
        → IsGiven (T.named target.old) (T.named target.new) (T.Out.put out) (T.entries target.new) }
    ensures names { NameElapses T.names T.moment T.names_since target.old target.new
        (MayLeave (T.names target.old) (λ c. c ≡ T.Out.put out) (T.entries target.new)) }
    ensures count { OnOk result (T.failures target.new ≡ joint_count (T.failures target.old) (T.Out.failures out)) }
    ensures rose { OnErr result (Rose (T.failures target.old) (T.failures target.new)) }
    ensures makes { T.makes target.new ≡ T.makes target.old }
{
    target.settle_part(out)?;
    name_part(target)?;
    target.settle_folder()
}

/// Takes the name back, where it was given.
fn without_name<T: Target>(target: &mut T) -> Result<(), Device>
    ensures same { (T.entries target.old).name ≢ Entry.Made
        → (T.named target.new ≡ T.named target.old) × (T.entries target.new ≡ T.entries target.old) }
    ensures ok { (T.entries target.old).name ≡ Entry.Made → OnOk result ((T.named target.new ≡ None)
        × (T.entries target.new ≡ record (T.entries target.old) { name = Entry.Absent })) }
    ensures err { (T.entries target.old).name ≡ Entry.Made → OnErr result ((T.named target.new ≡ T.named target.old)
        × (T.entries target.new ≡ record (T.entries target.old) { name = Entry.Stuck })) }
    ensures names { NameElapses T.names T.moment T.names_since target.old target.new
        (λ c. T.names target.old c ⊎ (c ≡ None)) }
    ensures count { Counts (T.failures target.old) (T.failures target.new) result }
    ensures makes { T.makes target.new ≡ T.makes target.old }
{
    if target.made().name != Entry::Made {
        return Ok(());
    }
    target.remove_name()
}

/// Removes the part, where it is there.
fn without_part<T: Target>(target: &mut T) -> Result<(), Device>
    requires order { (T.entries target.old).unlinked ≡ true → (T.entries target.old).name ≡ Entry.Made → ⊥ }
    ensures gone { (T.entries target.new).part ≢ Entry.Made }
    ensures name { (T.entries target.new).name ≡ (T.entries target.old).name }
    ensures unlinked { (T.entries target.new).unlinked ≡ (T.entries target.old).unlinked }
    ensures named { T.named target.new ≡ T.named target.old }
    ensures names { NameElapses T.names T.moment T.names_since target.old target.new (T.names target.old) }
    ensures count { Counts (T.failures target.old) (T.failures target.new) result }
    ensures makes { T.makes target.new ≡ T.makes target.old }
{
    if target.made().part != Entry::Made {
        return Ok(());
    }
    target.remove_part()
}

/// Takes away what the target made. Both names are tried.
fn withdraw<T: Target>(target: &mut T) -> Result<(), Device>
    ensures gone { (T.entries target.new).part ≢ Entry.Made }
    ensures same { (T.entries target.old).name ≢ Entry.Made → (T.named target.new ≡ T.named target.old)
        × ((T.entries target.new).name ≡ (T.entries target.old).name) }
    ensures taken { (T.entries target.old).name ≡ Entry.Made
        → ((T.named target.new ≡ None) × ((T.entries target.new).name ≡ Entry.Absent))
        ⊎ ((T.named target.new ≡ T.named target.old) × ((T.entries target.new).name ≡ Entry.Stuck)) }
    ensures unlinked { (T.entries target.new).unlinked ≡ (T.entries target.old).unlinked }
    ensures names { NameElapses T.names T.moment T.names_since target.old target.new
        (λ c. T.names target.old c ⊎ (c ≡ None)) }
    ensures count { Counts (T.failures target.old) (T.failures target.new) result }
    ensures makes { T.makes target.new ≡ T.makes target.old }
{
    let back = without_name(target);
    let gone = without_part(target);
    match back {
        Ok(()) => gone,
        Err(Device) => Err(Device),
    }
}

/// Gives the part the name, or where that fails leaves neither.
fn publish<T: Target>(target: &mut T, out: T::Out) -> Result<(), Device>
    requires part { (T.entries target.old).part ≡ Entry.Made }
    requires name { (T.entries target.old).name ≡ Entry.Absent }
    ensures ok { OnOk result (T.named target.new ≡ T.Out.put out) }
    ensures durable { OnOk result ((c : Option (List ℕ)) → T.names target.new c → c ≡ T.named target.new) }
    ensures made { OnOk result ((T.entries target.new).name ≡ Entry.Made) }
    ensures settled { OnOk result ((T.entries target.new).settled ≡ true) }
    ensures gone { OnOk result ((T.entries target.new).part ≡ Entry.Absent) }
    ensures no_part { (T.entries target.new).part ≢ Entry.Made }
    ensures no_name { OnErr result ((T.entries target.new).name ≢ Entry.Made) }
    ensures unnamed { IsTrue T.tells_bytes → OnErr result
        (IsUnnamed (T.named target.old) (T.named target.new) (λ c. c ≡ T.Out.put out) (T.entries target.new)) }
    ensures names { NameElapses T.names T.moment T.names_since target.old target.new
        (MayLeave (T.names target.old) (λ c. c ≡ T.Out.put out) (T.entries target.new)) }
    ensures count { OnOk result (T.failures target.new ≡ joint_count (T.failures target.old) (T.Out.failures out)) }
    ensures rose { OnErr result (Rose (T.failures target.old) (T.failures target.new)) }
    ensures makes { T.makes target.new ≡ T.makes target.old }
{
    match give(target, out) {
        Ok(()) => Ok(()),
        Err(Device) => {
            let _ = withdraw(target);
            Err(Device)
        }
    }
}

/// Closes the part. Where `whole` it is given the name, and else removed, as it is where that fails.
pub fn close<T: Target>(target: &mut T, out: T::Out, whole: bool) -> Result<(), Device>
    requires part { (T.entries target.old).part ≡ Entry.Made }
    requires name { (T.entries target.old).name ≡ Entry.Absent }
    ensures named { whole ≡ true → OnOk result (T.named target.new ≡ T.Out.put out) }
    ensures durable { whole ≡ true
        → OnOk result ((c : Option (List ℕ)) → T.names target.new c → c ≡ T.named target.new) }
    ensures made { whole ≡ true → OnOk result ((T.entries target.new).name ≡ Entry.Made) }
    ensures settled { whole ≡ true → OnOk result ((T.entries target.new).settled ≡ true) }
    ensures gone { whole ≡ true → OnOk result ((T.entries target.new).part ≡ Entry.Absent) }
    ensures same { whole ≡ false → T.named target.new ≡ T.named target.old }
    ensures no_part { (T.entries target.new).part ≢ Entry.Made }
    ensures no_name { whole ≡ false → (T.entries target.new).name ≢ Entry.Made }
    ensures failed { OnErr result ((T.entries target.new).name ≢ Entry.Made) }
    ensures unnamed { IsTrue T.tells_bytes → whole ≡ true → OnErr result
        (IsUnnamed (T.named target.old) (T.named target.new) (λ c. c ≡ T.Out.put out) (T.entries target.new)) }
    ensures names { NameElapses T.names T.moment T.names_since target.old target.new (MayLeave (T.names target.old)
        (λ c. (whole ≡ true) × (c ≡ T.Out.put out)) (T.entries target.new)) }
    ensures count { OnOk result (T.failures target.new ≡ joint_count (T.failures target.old) (T.Out.failures out)) }
    ensures rose { OnErr result (Rose (T.failures target.old) (T.failures target.new)) }
    ensures makes { T.makes target.new ≡ T.makes target.old }
{
    if whole {
        return publish(target, out);
    }
    target.close_part(out);
    withdraw(target)
}
