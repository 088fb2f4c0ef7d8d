//! A target that keeps its files in memory.

ghost use Rattle.std.specs.Prelude.{◌≡◌, ◌-◌, ◌≤◌, ◌∷◌, true, List, ℕ, length, Some, IfOk, OnOk, OnErr};
ghost use Rattle.ncc_values.specs.Failures.{last_count, Rose, Counts};
ghost use Rattle.test_conversions.specs.Kept.{named_of, is_named, names_of, since_of};

use crate::step::Step;
use ncc_header::WriteSink;
use ncc_making::{Entries, Entry, Linked, Target};
use ncc_store::Device;
use ncc_values::count_failure;
use std::alloc::{AllocError, Global};

/// What a target can't do.
#[derive(Clone, Copy, PartialEq, Eq)]
pub enum Fault {
    Nothing,
    Making,
    Settling,
    /// The part can't be given the name: a file has it, or the system fails.
    Linking,
    /// The part is given no second name.
    Refusing,
    Claiming,
    Renaming,
    RemovingPart,
    RemovingName,
    Folder,
}

/// Files in memory: the part that was closed last, and what stood under the name.
#[derive(Drop)]
pub struct Kept {
    alloc: Global,
    faults: [Fault; 2],
    part: Vec<u8>,
    /// What was done to the name, the newest step first.
    log: Vec<Step>,
    taken: bool,
    entries: Entries,
    makes: u64,
    failures: u64,
    ghost counted: { failures ≤ last_count },
    ghost known: { taken ≡ is_named (log.items) },
}

const NOTHING: Entries = Entries {
    part: Entry::Absent,
    name: Entry::Absent,
    settled: false,
    unlinked: false,
};

/// A copy of these bytes.
fn copied(alloc: Global, bytes: &[u8]) -> Result<Vec<u8>, AllocError>
    ensures { IfOk result (λ copy. copy.items ≡ bytes.now) }
{
    let mut copy = Vec::new(alloc);
    copy.extend_from_slice(bytes)?;
    Ok(copy)
}

impl Kept {
    /// No file has the name.
    pub fn new(alloc: Global, faults: [Fault; 2]) -> Kept {
        Kept {
            alloc,
            faults,
            part: Vec::new(alloc),
            log: Vec::new(alloc),
            taken: false,
            entries: NOTHING,
            makes: 0,
            failures: 0,
        }
    }

    fn fails(&self, fault: Fault) -> bool {
        self.faults[0] == fault || self.faults[1] == fault
    }

    /// A target whose name a file has.
    pub fn holding(alloc: Global, file: Vec<u8>) -> Result<Kept, AllocError> {
        let mut kept = Kept::new(alloc, [Fault::Nothing, Fault::Nothing]);
        let Ok(()) = kept.note(Step::Gives(file), true) else {
            return Err(AllocError);
        };
        let Ok(()) = kept.note(Step::Settles, true) else {
            return Err(AllocError);
        };
        Ok(kept)
    }

    /// What stands under the name, if a file has it.
    pub fn named(&self) -> Option<&[u8]> {
        for step in &self.log {
            match step {
                Step::Gives(file) => return Some(file.as_slice()),
                Step::Takes => return None,
                Step::Settles => {}
            }
        }
        None
    }

    /// Whether what stands under the name is on the disk.
    pub fn is_settled(&self) -> bool {
        match self.log.first() {
            Some(Step::Settles) | None => true,
            _ => false,
        }
    }

    /// How many parts were made.
    pub fn makes(&self) -> u64 {
        self.makes
    }

    /// A failure.
    fn fail(&mut self) -> Device
        ensures part { self.new.part ≡ self.old.part }
        ensures log { self.new.log ≡ self.old.log }
        ensures entries { self.new.entries ≡ self.old.entries }
        ensures makes { self.new.makes ≡ self.old.makes }
        ensures rose { Rose self.old.failures self.new.failures }
    {
        count_failure(&mut self.failures);
        Device
    }

    /// Notes a step, after which a file has the name or none. It fails where there is no memory.
    fn note(&mut self, step: Step, named: bool) -> Result<(), Device>
        requires { is_named (step ∷ self.old.log.items) ≡ named }
        ensures ok { OnOk result (self.new.log.items ≡ step ∷ self.old.log.items) }
        ensures err { OnErr result (self.new.log.items ≡ self.old.log.items) }
        ensures part { self.new.part ≡ self.old.part }
        ensures entries { self.new.entries ≡ self.old.entries }
        ensures makes { self.new.makes ≡ self.old.makes }
        ensures count { Counts self.old.failures self.new.failures result }
    {
        match self.log.insert(0, step) {
            Ok(()) => {
                self.taken = named;
                Ok(())
            }
            Err(_) => Err(self.fail()),
        }
    }
}

impl Target for Kept {
    ghost use Rattle.test_conversions.specs.KeptLaws.{name_stands, now_since, since_now};

    type Out = WriteSink<Vec<u8>>;

    ghost tells_bytes = { true };

    ghost part = { λ t. Some t.part.items };

    ghost named = { λ t. named_of t.log.items };

    ghost names = { λ t. names_of t.log.items };

    ghost moment = { λ t. length t.log.items };

    ghost names_since = { λ t at. since_of (length t.log.items - at) t.log.items };

    ghost entries = { λ t. t.entries };

    ghost failures = { λ t. t.failures };

    ghost makes = { λ t. t.makes };

    ghost stands = { λ t told. name_stands t.log.items };

    ghost counts_now = { λ t at c le now. now_since (length t.log.items - at) t.log.items c now };

    ghost only_now = { λ t c left. since_now t.log.items c left };

    ghost at_most_last = { λ t. t.counted };

    fn made(&self) -> Entries {
        self.entries
    }

    fn look(&mut self) -> Result<(), Device> {
        if self.taken {
            return Err(self.fail());
        }
        Ok(())
    }

    fn make_part(&mut self) -> Result<WriteSink<Vec<u8>>, Device> {
        if self.fails(Fault::Making) {
            return Err(self.fail());
        }
        self.makes = self.makes.saturating_add(1);
        self.entries = Entries {
            part: Entry::Made,
            name: Entry::Absent,
            settled: false,
            unlinked: false,
        };
        Ok(WriteSink::new(Vec::new(self.alloc)))
    }

    fn close_part(&mut self, out: WriteSink<Vec<u8>>) {
        self.failures = self.failures.saturating_add(out.failures());
        self.part = out.into_inner();
    }

    fn settle_part(&mut self, out: WriteSink<Vec<u8>>) -> Result<(), Device> {
        self.failures = self.failures.saturating_add(out.failures());
        self.part = out.into_inner();
        if self.fails(Fault::Settling) {
            return Err(self.fail());
        }
        self.entries.settled = true;
        Ok(())
    }

    fn link(&mut self) -> Linked {
        if self.fails(Fault::Refusing) {
            self.entries.unlinked = true;
            return Linked::Refused;
        }
        if self.taken || self.fails(Fault::Linking) {
            self.fail();
            return Linked::Failed;
        }
        let Ok(file) = copied(self.alloc, &self.part) else {
            self.fail();
            return Linked::Failed;
        };
        match self.note(Step::Gives(file), true) {
            Ok(()) => {
                self.entries.name = Entry::Made;
                self.entries.unlinked = false;
                Linked::Done
            }
            Err(Device) => Linked::Failed,
        }
    }

    fn claim(&mut self) -> Result<(), Device> {
        if self.taken || self.fails(Fault::Claiming) {
            return Err(self.fail());
        }
        self.note(Step::Gives(Vec::new(self.alloc)), true)?;
        self.entries.name = Entry::Made;
        Ok(())
    }

    fn rename(&mut self) -> Result<(), Device> {
        if self.fails(Fault::Renaming) {
            return Err(self.fail());
        }
        let Ok(file) = copied(self.alloc, &self.part) else {
            return Err(self.fail());
        };
        self.note(Step::Gives(file), true)?;
        self.entries.part = Entry::Absent;
        Ok(())
    }

    fn remove_part(&mut self) -> Result<(), Device> {
        if self.fails(Fault::RemovingPart) {
            self.entries.part = Entry::Stuck;
            return Err(self.fail());
        }
        self.entries.part = Entry::Absent;
        Ok(())
    }

    fn remove_name(&mut self) -> Result<(), Device> {
        if self.fails(Fault::RemovingName) {
            self.entries.name = Entry::Stuck;
            return Err(self.fail());
        }
        match self.note(Step::Takes, false) {
            Ok(()) => {
                self.entries.name = Entry::Absent;
                Ok(())
            }
            Err(Device) => {
                self.entries.name = Entry::Stuck;
                Err(Device)
            }
        }
    }

    fn settle_folder(&mut self) -> Result<(), Device> {
        if self.fails(Fault::Folder) {
            return Err(self.fail());
        }
        self.note(Step::Settles, self.taken)
    }
}
