// Items that are lent, seen as the list of what is lent.

ghost use Rattle.std.specs.Prelude.{◌≡◌, ◌<◌, ◌++◌, ◌∷◌, [], IfOk, OnOk, get_or, length, map};

use std::alloc::{AllocError, Global};
use std::marker::Model;

/// Items that are lent. In a clause they are the list of what is lent.
pub struct Lent<'a, T> {
    items: Vec<&'a T>,
}

impl<'a, T> Drop for Lent<'a, T> {
    fn drop(self) {
        let Lent { items: _ } = self;
    }
}

impl<'a, T> Model for Lent<'a, T> {
    ghost use Rattle.std.specs.Prelude.{List, map};

    ghost Value = { List T };

    ghost view = { λ l. map (λ item. item.now) l.items.items };
}

impl<'a, T> Lent<'a, T> {
    /// Nothing is lent yet. It has no refusal.
    pub fn new(alloc: Global) -> Lent<'a, T>
        ensures { result ≡ [] }
    {
        Lent {
            items: Vec::new(alloc),
        }
    }

    /// The items of a slice.
    pub fn of(alloc: Global, items: &'a [T]) -> Result<Lent<'a, T>, AllocError>
        ensures { IfOk result (λ lent. lent ≡ items.now) }
    {
        let mut lent = Lent::new(alloc);
        for item in items {
            lent.push(item)?;
        }
        Ok(lent)
    }

    /// Puts `item` behind the others.
    pub fn push(&mut self, item: &'a T) -> Result<(), AllocError>
        ensures { OnOk result (self.new ≡ self.old ++ item.now ∷ []) }
    {
        self.items.push(item)?;
        Ok(())
    }

    /// Puts more of them behind the others.
    pub fn append(&mut self, more: Lent<'a, T>) -> Result<(), AllocError>
        ensures { OnOk result (self.new ≡ self.old ++ more.entry) }
    {
        let mut items = more.into_vec();
        self.items.append(&mut items)?;
        Ok(())
    }

    /// How many there are.
    pub fn len(&self) -> usize
        ensures { result ≡ length self.now }
    {
        self.items.len()
    }

    /// The item at a place.
    pub fn at(&self, place: usize) -> &'a T
        requires { place < length self.now }
        ensures { result.now ≡ get_or self.now place result.now }
    {
        self.items[place]
    }

    /// The vector of the items.
    pub fn into_vec(self) -> Vec<&'a T>
        ensures { map (λ item. item.now) result.items ≡ self.entry }
    {
        let Lent { items } = self;
        items
    }

    /// The items, lent.
    pub fn as_slice(&self) -> &[&'a T]
        ensures { map (λ item. item.now) result.now ≡ self.now }
    {
        self.items.as_slice()
    }
}
