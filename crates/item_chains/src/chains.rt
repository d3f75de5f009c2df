ghost use Rattle.std.specs.Prelude.{◌≡◌, ◌<◌, ◌≤◌, ◌^◌, ◌++◌, ◌∷◌, [], ℕ, suc, List, length, true, false};
ghost use Rattle.item_chains.specs.Chains.{from_first};

use arrayvec::ArrayVec;
use std::marker::Model;

/// An item with its number, and how many items there are from the next one with that number on.
#[derive(Clone, Copy, Default)]
pub(crate) struct Linked<T> {
    pub(crate) item: T,
    pub(crate) number: u8,
    pub(crate) next: u16,
}

/// At most N items in order, each with a number below 64.
#[derive(Drop)]
pub struct Chains<T, const N: usize> {
    linked: ArrayVec<Linked<T>, N>,
    firsts: [u16; 64],
}

impl<T, const N: usize> Model for Chains<T, N> {
    ghost use Rattle.std.specs.Prelude.{ℕ, List};
    ghost use Rattle.std.specs.Coded.{coded_list, coded×, coded_ℕ};
    ghost use Rattle.item_chains.specs.Chains.{shown, IsLinked};

    ghost Value = { List (ℕ × T) };

    ghost coded = { coded_list (coded× coded_ℕ T.code) };

    ghost view = { λ c. shown c.linked.items };

    ghost invariant = { λ c. IsLinked c.linked.items c.firsts };
}

impl<T: Copy + Default, const N: usize> Chains<T, N> {
    /// No items.
    pub fn new() -> Self
        ensures { result ≡ [] }
    {
        Chains {
            linked: ArrayVec::new(),
            firsts: [0; 64],
        }
    }

    /// Puts an item before the others, and answers true; false where there is no room.
    #[inline]
    pub fn put_first(&mut self, number: u8, item: T) -> bool
        requires number { number < 64 }
        requires room { N < 2 ^ 16 }
        ensures put { result ≡ true → self.new ≡ (number, item) ∷ self.old }
        ensures full { result ≡ false → self.new ≡ self.old }
    {
        let next = self.firsts[number as usize];
        if self.linked.is_full() {
            return false;
        }
        self.linked.push(Linked { item, number, next });
        self.firsts[number as usize] = self.linked.len() as u16;
        true
    }

    /// How many items there are from the first one with that number on, and 0 where none has it.
    #[inline]
    pub fn first(&self, number: u8) -> u16
        requires { number < 64 }
        ensures { result ≡ from_first number self.now }
    {
        self.firsts[number as usize]
    }

    /// How many items there are.
    #[inline]
    pub fn len(&self) -> usize
        ensures { result ≡ length self.now }
    {
        self.linked.len()
    }

    /// The item from which on there are so many, and how many there are from the next one with its number on.
    #[inline]
    pub fn at(&self, left: usize) -> (T, u16)
        requires some { 0 < left }
        requires within { left ≤ length self.now }
        ensures { (before after : List (ℕ × T)) (x : ℕ × T) → before ++ x ∷ after ≡ self.now →
            left ≡ suc (length after) → result ≡ (x.1, from_first x.0 after) }
    {
        let linked = self.linked[left - 1];
        (linked.item, linked.next)
    }
}
