//! An item goes to the end of its list, and its name to the names of the list.

ghost use Rattle.std.specs.Prelude.{◌≡◌, ◌<◌, [], ◌∷◌, ◌++◌, false, length, vec_len, IfOk, IsOk, OnOk, OnErr};
ghost use Rattle.ncc_values.specs.Values.{AreInRange};
ghost use Rattle.ncc_build.specs.Building.{is_duplicate_name, vars_with};
ghost use Rattle.ncc_build.specs.Tables.{names_at, with_name};

use crate::names::{Names, own_name};
use crate::ranges::values_in_range;
use ncc_schema::{Attr, Var};
use ncc_values::{Name, Seq, Values};
use std::alloc::{AllocError, Global};
use std::mem;

/// An attribute with a name in memory of its own.
pub fn own_attr(alloc: Global, name: &[u8], values: Values) -> Result<Attr, AllocError>
    ensures name { IfOk result (λ a. a.name ≡ name.now) }
    ensures values { IfOk result (λ a. a.values ≡ values) }
    ensures range { OnOk result (AreInRange values) }
{
    values_in_range(&values);
    Ok(Attr {
        name: own_name(alloc, name)?,
        values,
    })
}

/// Adds an item and its name. After an error both lists are as they were.
fn push_named<T: Drop>(
    alloc: Global,
    items: &mut Vec<T>,
    item: T,
    names: &mut Names,
    name: Name,
) -> Result<(), AllocError>
    requires { is_duplicate_name name names.old ≡ false }
    ensures item { OnOk result (items.new.items ≡ items.old.items ++ item ∷ []) }
    ensures name { OnOk result (names.new ≡ names.old ++ name ∷ []) }
    ensures items_stay { OnErr result (items.new.items ≡ items.old.items) }
    ensures names_stay { OnErr result (names.new ≡ names.old) }
{
    items.reserve(1)?;
    names.add(alloc, name)?;
    items.push_reserved(item);
    Ok(())
}

/// Adds an item and its name. After an error both lists are as they were.
pub fn add_named<T: Drop>(
    alloc: Global,
    items: &mut Seq<T>,
    item: T,
    names: &mut Names,
    name: Name,
) -> Result<(), AllocError>
    requires { is_duplicate_name name names.old ≡ false }
    ensures item { OnOk result (items.new ≡ items.old ++ item ∷ []) }
    ensures name { OnOk result (names.new ≡ names.old ++ name ∷ []) }
    ensures items_stay { OnErr result (items.new ≡ items.old) }
    ensures names_stay { OnErr result (names.new ≡ names.old) }
{
    let mut listed = mem::replace(items, Seq::new(alloc)).into_vec();
    let added = push_named(alloc, &mut listed, item, names, name);
    *items = Seq::from_vec(listed);
    added
}

/// Adds an attribute of a variable, and its name. After an error all is as it was.
pub fn add_to_var(
    alloc: Global,
    vars: &mut Seq<Var>,
    var: usize,
    attr: Attr,
    tables: &mut Vec<Names>,
    name: Name,
) -> Result<(), AllocError>
    requires there { var < length vars.old }
    requires listed { var < vec_len tables.old }
    requires fresh { is_duplicate_name name (names_at tables.old.items var) ≡ false }
    ensures attr { OnOk result (vars.new ≡ vars_with vars.old var attr.name attr.values) }
    ensures name { OnOk result (tables.new.items ≡ with_name tables.old.items var name) }
    ensures vars_stay { OnErr result (vars.new ≡ vars.old) }
    ensures names_stay { OnErr result (tables.new.items ≡ tables.old.items) }
{
    let mut listed = mem::replace(vars, Seq::new(alloc)).into_vec();
    let added = add_named(alloc, &mut listed[var].attrs, attr, &mut tables[var], name);
    *vars = Seq::from_vec(listed);
    added
}

/// Makes room for so many items and their names. Both lists stay as they are.
fn reserve_named<T: Drop>(
    alloc: Global,
    items: &mut Seq<T>,
    names: &mut Names,
    count: usize,
) -> Result<(), AllocError>
    ensures items { items.new ≡ items.old }
    ensures names { names.new ≡ names.old }
    ensures none { count ≡ 0 → IsOk result }
{
    let mut listed = mem::replace(items, Seq::new(alloc)).into_vec();
    let reserved = listed.reserve(count);
    *items = Seq::from_vec(listed);
    reserved?;
    names.reserve(alloc, count)
}

/// Makes room for so many attributes of a variable. All stays as it is.
pub fn reserve_in_var(
    alloc: Global,
    vars: &mut Seq<Var>,
    var: usize,
    tables: &mut Vec<Names>,
    count: usize,
) -> Result<(), AllocError>
    requires there { var < length vars.old }
    requires listed { var < vec_len tables.old }
    ensures vars { vars.new ≡ vars.old }
    ensures names { tables.new.items ≡ tables.old.items }
    ensures none { count ≡ 0 → IsOk result }
{
    let mut listed = mem::replace(vars, Seq::new(alloc)).into_vec();
    let reserved = reserve_named(alloc, &mut listed[var].attrs, &mut tables[var], count);
    *vars = Seq::from_vec(listed);
    reserved
}
