//! A small list, seen by contracts as the list of its items.
ghost use Rattle.std.specs.Prelude.{◌≡◌, ◌==◌, ◌++◌, ◌∷◌, [], length, IfOk, OnOk, OnErr};

use std::alloc::{AllocError, Global};
use std::marker::Model;

/// A list over a `Vec`. Contracts see it as the list of its items, and not its capacity.
#[derive(Debug, Drop)]
pub struct Items<T> {
    inner: Vec<T>,
}

/// A byte string.
pub type Bytes = Items<u8>;

impl<T> Model for Items<T> {
    ghost use Rattle.std.specs.Prelude.{List};
    ghost use Rattle.std.specs.Coded.{coded_list};

    ghost Value = { List T };

    ghost coded = { coded_list T.code };

    ghost view = { λ a. a.inner.items };
}

impl<T> Items<T> {
    /// The empty list. It takes no memory.
    pub fn new(alloc: Global) -> Self
        ensures value { result ≡ [] }
    {
        Items {
            inner: Vec::new(alloc),
        }
    }

    /// The items of a vector, which is moved and not copied.
    pub fn from_vec(inner: Vec<T>) -> Self
        ensures value { result ≡ inner.items }
    {
        Items { inner }
    }

    /// The vector of the items, which is moved and not copied.
    pub fn into_vec(self) -> Vec<T>
        ensures value { result.items ≡ self }
    {
        self.inner
    }

    /// The items in order.
    pub fn slice(&self) -> &[T]
        ensures value { result.now ≡ self.now }
    {
        self.inner.as_slice()
    }

    /// The number of items.
    pub fn len(&self) -> usize
        ensures value { result ≡ length self.now }
    {
        self.inner.len()
    }

    /// Whether there is no item.
    pub fn is_empty(&self) -> bool
        ensures value { result ≡ (length self.now == 0) }
    {
        self.inner.is_empty()
    }
}

impl<T: Drop> Items<T> {
    /// Appends an item. After an error the list is as it was, and the item is let go.
    pub fn push(&mut self, item: T) -> Result<(), AllocError>
        ensures ok { OnOk result (self.new ≡ self.old ++ item ∷ []) }
        ensures err { OnErr result (self.new ≡ self.old) }
    {
        match self.inner.push(item) {
            Ok(()) => Ok(()),
            Err(failed) => Err(failed.into()),
        }
    }
}

impl<T: Copy> Items<T> {
    /// A copy of the items.
    pub fn copy(alloc: Global, source: &[T]) -> Result<Self, AllocError>
        ensures value { IfOk result (λ copied. copied ≡ source.now) }
    {
        let inner = Vec::from_slice(alloc, source)?;
        Ok(Items { inner })
    }
}
