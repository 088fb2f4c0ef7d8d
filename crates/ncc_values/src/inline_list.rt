//! A list that owns its elements, where few of them take no allocation.

ghost use Rattle.std.specs.Prelude.{◌≡◌, ◌+◌, ◌-◌, ◌*◌, ◌/◌, ◌%◌, ◌<◌, ◌≤◌, ◌↔◌, [], ◌++◌, length, take, drop, IsTrue, IsOk, IsSome, IfOk, IfSome, OnOk, OnErr};

use crate::elements::{push_elements, put_elements, read_into};
use crate::external::External;
use std::alloc::{AllocError, Global};
use std::fmt;
use std::marker::Model;
use std::mem::size_of;

/// Where an `InlineList` keeps its elements.
#[derive(Drop)]
pub(crate) enum Storage<T, const N: usize> {
    /// So many, at the front of the array. What does not fit will be kept in memory of the allocator.
    Inline {
        alloc: Global,
        len: u8,
        items: [T; N],
    },
    Heap(Vec<T>),
}

/// A list of elements. Up to `N` of them, and 255, that were added one list after another lie in the
/// value itself, and others in a `Vec`: no contract sees which.
#[derive(Drop)]
pub struct InlineList<T, const N: usize> {
    storage: Storage<T, N>,
}

/// A name: one of up to 30 bytes takes no allocation.
pub type Name = InlineList<u8, 30>;

const _: () = prove!(size_of::<Name>() == 32);

impl<T, const N: usize> Model for InlineList<T, N> {
    ghost use Rattle.std.specs.Prelude.{List};

    ghost Value = { List T };

    ghost use Rattle.ncc_values.specs.InlineList.{items_of, IsWithin};

    ghost view = { λ s. items_of s.storage };

    ghost invariant = { λ s. IsWithin s.storage };
}

/// How many elements there are with so many more, where they fit into `room`.
fn len_with(len: u8, more: usize, room: usize) -> Option<u8>
    ensures sum { IfSome result (λ n. (n ≡ len + more) × (n ≤ room)) }
    ensures some { len + more ≤ room → len + more < 256 → IsSome result }
{
    let free = 255 - len as usize;
    if more > free || len as usize + more > room {
        return None;
    }
    Some((len as usize + more) as u8)
}

impl<T, const N: usize> Storage<T, N> {
    ghost use Rattle.ncc_values.specs.InlineList.{items_of, IsWithin};

    fn as_slice(&self) -> &[T]
        requires { IsWithin self.now }
        ensures { result.now ≡ items_of self.now }
    {
        match self {
            Storage::Inline { len, items, .. } => &items[..*len as usize],
            Storage::Heap(items) => items.as_slice(),
        }
    }
}

impl<T, const N: usize> Storage<T, N> {
    fn alloc(&self) -> Global {
        match self {
            Storage::Inline { alloc, .. } => *alloc,
            Storage::Heap(items) => *items.allocator(),
        }
    }
}

impl<T, const N: usize> InlineList<T, N> {
    /// The elements of the vector, in its memory.
    pub fn from_vec(items: Vec<T>) -> InlineList<T, N>
        ensures { result ≡ items.items }
    {
        InlineList {
            storage: Storage::Heap(items),
        }
    }

    pub fn as_slice(&self) -> &[T]
        ensures { result.now ≡ self.now }
    {
        self.storage.as_slice()
    }

    pub fn len(&self) -> usize
        ensures { result ≡ length self.now }
    {
        self.as_slice().len()
    }

    pub fn is_empty(&self) -> bool
        ensures { IsTrue result ↔ (self.now ≡ []) }
    {
        self.as_slice().is_empty()
    }
}

impl<T: Copy + Default, const N: usize> Storage<T, N> {
    ghost use Rattle.ncc_values.specs.InlineList.{items_of, IsWithin, IsInline};

    fn new(alloc: Global) -> Storage<T, N>
        ensures within { IsWithin result }
        ensures inline { IsInline result }
        ensures none { items_of result ≡ [] }
    {
        Storage::Inline {
            alloc,
            len: 0,
            items: [T::default(); N],
        }
    }
}

impl<T: Copy + Default, const N: usize> InlineList<T, N> {
    /// No elements. Where they are more than few, they will be kept in memory of the allocator.
    pub fn new(alloc: Global) -> InlineList<T, N>
        ensures { result ≡ [] }
    {
        InlineList {
            storage: Storage::new(alloc),
        }
    }
}

/// Writes copies of the elements over those from `start` on.
fn copy_into<T: Copy>(items: &mut [T], start: usize, more: &[T])
    requires { start + length more.now ≤ length items.old }
    ensures same { length items.new ≡ length items.old }
    ensures front { take (start + length more.now) items.new ≡ take start items.old ++ more.now }
{
    items[start..start + more.len()].copy_from_slice(more);
}

impl<T: Copy, const N: usize> Storage<T, N> {
    ghost use Rattle.ncc_values.specs.InlineList.{items_of, IsWithin, IsInline, EndsAt};

    /// Where so many more elements begin and end in the array, if they fit there.
    fn room_for(&self, more: usize) -> Option<(usize, usize)>
        requires { IsWithin self.now }
        ensures ends { IfSome result (λ r. EndsAt r.0 self.now) }
        ensures more { IfSome result (λ r. r.1 ≡ r.0 + more) }
        ensures room { IfSome result (λ r. r.1 ≤ N) }
        ensures small { IfSome result (λ r. r.1 < 256) }
        ensures some { IsInline self.now → length (items_of self.now) + more ≤ N → N < 256 → IsSome result }
        ensures none { IsInline self.now → more ≡ 0 → IsSome result }
    {
        match self {
            Storage::Inline { len, .. } => {
                let end = len_with(*len, more, N)?;
                Some((*len as usize, end as usize))
            }
            Storage::Heap(_) => None,
        }
    }

    /// Puts copies of the elements into the array.
    fn put_copies(&mut self, start: usize, end: usize, more: &[T])
        requires ends { EndsAt start self.old }
        requires more { end ≡ start + length more.now }
        requires room { end ≤ N }
        requires small { end < 256 }
        ensures within { IsWithin self.new }
        ensures items { items_of self.new ≡ items_of self.old ++ more.now }
    {
        let Storage::Inline { items, .. } = self else {
            return;
        };
        copy_into(items, start, more);
        let Storage::Inline { len, .. } = self else {
            return;
        };
        *len = end as u8;
    }

    /// The elements in a vector with room for so many more.
    fn spilled(&self, more: usize) -> Result<Vec<T>, AllocError>
        requires { IsWithin self.now }
        ensures { IfOk result (λ v. v.items ≡ items_of self.now) }
    {
        let items = self.as_slice();
        let mut spilled = Vec::with_capacity(self.alloc(), items.len().saturating_add(more))?;
        spilled.extend_from_slice(items)?;
        Ok(spilled)
    }

    /// Adds copies of the elements.
    fn extend(&mut self, more: &[T]) -> Result<(), AllocError>
        requires { IsWithin self.old }
        ensures within { IsWithin self.new }
        ensures ok { OnOk result (items_of self.new ≡ items_of self.old ++ more.now) }
        ensures err { OnErr result (items_of self.new ≡ items_of self.old) }
        ensures few { IsInline self.old → length (items_of self.old) + length more.now ≤ N → N < 256
            → IsOk result }
        ensures none { more.now ≡ [] → IsOk result }
    {
        if let Storage::Heap(items) = self {
            return items.extend_from_slice(more);
        }
        if let Some((start, end)) = self.room_for(more.len()) {
            self.put_copies(start, end, more);
            return Ok(());
        }
        let mut items = self.spilled(more.len())?;
        items.extend_from_slice(more)?;
        *self = Storage::Heap(items);
        Ok(())
    }
}

impl<T: External + Copy + Default, const N: usize> Storage<T, N> {
    ghost use Rattle.ncc_values.specs.InlineList.{items_of, IsWithin, IsInline, EndsAt};
    ghost use Rattle.ncc_values.specs.Values.{elements_of};

    /// Puts the elements that the bytes spell into the array.
    fn put_spelled(&mut self, start: usize, end: usize, bytes: &[u8])
        requires ends { EndsAt start self.old }
        requires more { end ≡ start + length bytes.now / T.SIZE }
        requires whole { length bytes.now % T.SIZE ≡ 0 }
        requires room { end ≤ N }
        requires small { end < 256 }
        ensures within { IsWithin self.new }
        ensures items { items_of self.new ≡ items_of self.old ++ elements_of T.element T.TYPE bytes.now }
    {
        let Storage::Inline { items, .. } = self else {
            return;
        };
        read_into(items, start, bytes);
        let Storage::Inline { len, .. } = self else {
            return;
        };
        *len = end as u8;
    }

    /// Adds the elements that the bytes spell.
    fn push(&mut self, bytes: &[u8]) -> Result<(), AllocError>
        requires within { IsWithin self.old }
        requires whole { length bytes.now % T.SIZE ≡ 0 }
        ensures within { IsWithin self.new }
        ensures ok { OnOk result (items_of self.new ≡ items_of self.old ++ elements_of T.element T.TYPE bytes.now) }
        ensures err { OnErr result (items_of self.new ≡ items_of self.old) }
        ensures few { IsInline self.old → length (items_of self.old) + length bytes.now / T.SIZE ≤ N → N < 256
            → IsOk result }
        ensures none { bytes.now ≡ [] → IsOk result }
    {
        if let Storage::Heap(items) = self {
            return push_elements(items, bytes);
        }
        let count = bytes.len() / T::SIZE;
        if let Some((start, end)) = self.room_for(count) {
            self.put_spelled(start, end, bytes);
            return Ok(());
        }
        let mut items = self.spilled(count)?;
        push_elements(&mut items, bytes)?;
        *self = Storage::Heap(items);
        Ok(())
    }
}

impl<T: Drop, const N: usize> InlineList<T, N> {
    /// Drops the elements.
    pub fn clear(&mut self)
        ensures { self.new ≡ [] }
    {
        match &mut self.storage {
            Storage::Inline { len, .. } => *len = 0,
            Storage::Heap(items) => items.clear(),
        }
    }
}

impl<T: External + Copy + Default, const N: usize> InlineList<T, N> {
    ghost use Rattle.ncc_values.specs.Values.{elements_of, bytes_by};

    /// The elements that the bytes spell. Few of them take no memory of the allocator.
    #[inline]
    pub(crate) fn of_bytes(alloc: Global, bytes: &[u8]) -> Result<InlineList<T, N>, AllocError>
        requires { length bytes.now % T.SIZE ≡ 0 }
        ensures ok { IfOk result (λ few. few ≡ elements_of T.element T.TYPE bytes.now) }
        ensures few { length bytes.now / T.SIZE ≤ N → N < 256 → IsOk result }
    {
        let count = bytes.len() / T::SIZE;
        if count <= N && count < 256 {
            let mut items = [T::default(); N];
            read_into(&mut items, 0, bytes);
            return Ok(InlineList {
                storage: Storage::Inline {
                    alloc,
                    len: count as u8,
                    items,
                },
            });
        }
        let mut items = Vec::new(alloc);
        push_elements(&mut items, bytes)?;
        Ok(InlineList::from_vec(items))
    }

    /// Adds the elements that the bytes spell.
    pub(crate) fn push_from(&mut self, bytes: &[u8]) -> Result<(), AllocError>
        requires { length bytes.now % T.SIZE ≡ 0 }
        ensures ok { OnOk result (self.new ≡ self.old ++ elements_of T.element T.TYPE bytes.now) }
        ensures err { OnErr result (self.new ≡ self.old) }
        ensures none { bytes.now ≡ [] → IsOk result }
    {
        self.storage.push(bytes)
    }

    /// Writes the bytes of the elements from `first` on, as many as `out` has room for.
    pub(crate) fn put_from(&self, first: usize, out: &mut [u8])
        requires whole { length out.old % T.SIZE ≡ 0 }
        requires there { first + length out.old / T.SIZE ≤ length self.now }
        ensures { out.new ≡ take (length out.old) (drop (first * T.SIZE) (bytes_by T.number T.TYPE self.now)) }
    {
        let count = out.len() / T::SIZE;
        let items = self.as_slice();
        put_elements(&items[first..first + count], out);
    }
}

impl<T: Copy + Default, const N: usize> InlineList<T, N> {
    /// Adds copies of the elements. After an error the list is as it was.
    pub fn extend_from_slice(&mut self, more: &[T]) -> Result<(), AllocError>
        ensures ok { OnOk result (self.new ≡ self.old ++ more.now) }
        ensures err { OnErr result (self.new ≡ self.old) }
        ensures none { more.now ≡ [] → IsOk result }
    {
        self.storage.extend(more)
    }

    /// Copies of the elements. Few of them take no memory of the allocator.
    pub fn from_slice(alloc: Global, items: &[T]) -> Result<InlineList<T, N>, AllocError>
        ensures same { IfOk result (λ few. few ≡ items.now) }
        ensures few { length items.now ≤ N → N < 256 → IsOk result }
    {
        let mut storage = Storage::new(alloc);
        storage.extend(items)?;
        Ok(InlineList { storage })
    }
}

impl<T: fmt::Debug, const N: usize> fmt::Debug for InlineList<T, N> {
    fn fmt<W: fmt::Write>(&self, f: &mut fmt::Formatter<W>) -> fmt::Result {
        f.debug_list().entries(self.as_slice()).finish()
    }
}

impl<T: PartialEq, const N: usize> PartialEq for InlineList<T, N> {
    ghost use Rattle.std.specs.Cmp.Lexicographic.{pointwise, lists_per};

    ghost eq = { pointwise T.eq };

    ghost laws = { lists_per T.laws };

    fn eq(&self, other: &Self) -> bool {
        self.as_slice() == other.as_slice()
    }
}

impl<T: Eq, const N: usize> Eq for InlineList<T, N> {
    ghost use Rattle.std.specs.Cmp.Lexicographic.{lists_equiv};

    ghost laws = { lists_equiv T.Eq.laws };
}
