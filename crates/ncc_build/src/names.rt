//! The names of a list: a few one after another, more in a table.

ghost use Rattle.std.specs.Prelude.{◌≡◌, [], ◌∷◌, ◌++◌, false, eqb, map, IfOk, IsOk, OnOk, OnErr};
ghost use Rattle.std.specs.Cmp.Lexicographic.{pointwise};
ghost use Rattle.std.specs.List.{list_any};
ghost use Rattle.ncc_values.specs.Numbers.{IsBytes};
ghost use Rattle.ncc_build.specs.Building.{is_duplicate_name};
ghost use Rattle.ncc_build.specs.Tables.{NoneTwice};

use crate::ranges::all_in_range;
use indexmap::IndexSet;
use ncc_values::Name;
use std::alloc::{AllocError, Global};
use std::marker::Model;

/// How many names are looked through one by one, at most.
const FEW: usize = 64;

/// The names of a list, in its order: a few, or else all of them in a table.
#[derive(Drop)]
pub struct Names {
    few: Vec<Name>,
    /// How many may be few: none, if it was known that there will be more.
    most: usize,
    table: IndexSet<Vec<u8>>,
    ghost distinct: { NoneTwice few.items },
}

impl Model for Names {
    ghost use Rattle.std.specs.Prelude.{ℕ, ◌++◌, List, map};

    ghost Value = { List (List ℕ) };

    ghost view = { λ n. n.few.items ++ map (λ k. k.items) n.table.keys };
}

/// Is the name one of these?
fn is_one_of(names: &[Name], name: &[u8]) -> bool
    ensures { result ≡ list_any (pointwise eqb name.now) names.now }
{
    names.iter().any(|other| name == other.as_slice())
}

/// A table of these names.
fn table_of(alloc: Global, names: &[Name]) -> Result<IndexSet<Vec<u8>>, AllocError>
    requires { NoneTwice names.now }
    ensures { IfOk result (λ table. map (λ k. k.items) table.keys ≡ names.now) }
{
    let mut table: IndexSet<Vec<u8>> = IndexSet::new(alloc);
    for name in names {
        table.insert(Vec::from_slice(alloc, name.as_slice())?)?;
    }
    Ok(table)
}

impl Names {
    /// No names. They will be kept in memory of the allocator.
    pub fn new(alloc: Global) -> Names
        ensures { result ≡ [] }
    {
        Names {
            few: Vec::new(alloc),
            most: FEW,
            table: IndexSet::new(alloc),
        }
    }

    /// Whether the name is one of them.
    pub fn has(&self, name: &[u8]) -> bool
        ensures { result ≡ is_duplicate_name name.now self.now }
    {
        is_one_of(&self.few, name) || self.table.contains(name)
    }

    /// Makes room for so many names. They stay as they are.
    pub fn reserve(&mut self, alloc: Global, count: usize) -> Result<(), AllocError>
        ensures same { self.new ≡ self.old }
        ensures none { count ≡ 0 → IsOk result }
    {
        if count > FEW {
            return self.begin_table(alloc, count);
        }
        self.few.reserve(count)
    }

    /// If there are no names yet, all will be in a table, which has room for so many.
    fn begin_table(&mut self, alloc: Global, count: usize) -> Result<(), AllocError>
        ensures { self.new ≡ self.old }
    {
        if !self.few.is_empty() || !self.table.is_empty() {
            return Ok(());
        }
        let table = IndexSet::with_capacity(alloc, count)?;
        self.table = table;
        self.most = 0;
        Ok(())
    }

    /// Moves the names into the table, once they aren't few any more.
    fn move_few(&mut self, alloc: Global) -> Result<(), AllocError>
        ensures { self.new ≡ self.old }
    {
        if self.few.len() < FEW || !self.table.is_empty() {
            return Ok(());
        }
        let table = table_of(alloc, &self.few)?;
        self.table = table;
        self.few = Vec::new(alloc);
        Ok(())
    }

    /// Adds a name that isn't there yet. After an error they are as they were.
    pub fn add(&mut self, alloc: Global, name: Name) -> Result<(), AllocError>
        requires { is_duplicate_name name self.old ≡ false }
        ensures ok { OnOk result (self.new ≡ self.old ++ name ∷ []) }
        ensures err { OnErr result (self.new ≡ self.old) }
    {
        self.move_few(alloc)?;
        if self.table.is_empty() && self.few.len() < self.most {
            self.few.push(name)?;
            return Ok(());
        }
        self.table.insert(Vec::from_slice(alloc, name.as_slice())?)?;
        Ok(())
    }
}

/// The same name, as an item has it.
pub fn own_name(alloc: Global, name: &[u8]) -> Result<Name, AllocError>
    ensures same { IfOk result (λ s. s ≡ name.now) }
    ensures bytes { IsBytes name.now }
{
    all_in_range(name);
    Name::from_slice(alloc, name)
}
