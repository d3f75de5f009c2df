ghost use Rattle.std.specs.Prelude.{◌≡◌, ◌≤◌, ◌<◌, ◌^◌, None, length, IfOk};
ghost use Rattle.std.specs.Bool.{OnTrue, OnFalse};
ghost use Rattle.key_index.specs.Codes.{code_of_index, code_of_list, code_of, AreCodes};
ghost use Rattle.key_index.specs.Found.{FindsAll, IsRankOf};

use crate::codes::{Codes, index_codes, key_code, list_code};
use crate::slots::Slots;
use airy_index::Key;
use std::alloc::{AllocError, Global};
use std::marker::Model;

/// Keys in the order of their ranks, with an index of their codes. Where the index is exact, the rank of each key is found
/// by its code. Where two keys have one code, or the slots near its start are full, it isn't exact, and finds nothing.
#[derive(Drop)]
pub struct KeyIndex {
    keys: Vec<Key>,
    codes: Codes,
    slots: Slots,
    exact: bool,
}

impl Model for KeyIndex {
    ghost use Rattle.key_index.specs.Kept.{Index, IsIndex};

    ghost Value = { Index };

    ghost view = { λ k. record { keys = k.keys.items; exact = k.exact } };

    ghost invariant = { λ k. IsIndex (record { keys = k.keys.items; exact = k.exact }) k.codes k.slots.slots.items k.slots.width };
}

impl KeyIndex {
    /// An index of the keys, fewer than 2^31, which it keeps; the error for want of memory.
    pub fn of(alloc: Global, keys: Vec<Key>) -> Result<KeyIndex, AllocError>
        requires { length keys.items < 2 ^ 31 }
        ensures { IfOk result (λ index. index.keys ≡ keys.items) }
    {
        let codes = index_codes();
        let mut slots = Slots::of(alloc, keys.len())?;
        fill(&mut slots, &codes, keys.as_slice());
        let exact = finds_all(&slots, &codes, keys.as_slice());
        Ok(KeyIndex {
            keys,
            codes,
            slots,
            exact,
        })
    }

    /// The keys.
    pub fn keys(&self) -> &[Key]
        ensures { result.now ≡ self.now.keys }
    {
        self.keys.as_slice()
    }

    /// Whether each key is found by its code.
    pub fn is_exact(&self) -> bool
        ensures { result ≡ self.now.exact }
    {
        self.exact
    }

    /// The rank of each key with the code, where the index is exact, and else nothing. Of a code that no key has nothing is
    /// said.
    pub fn find(&self, code: u64) -> Option<u32>
        ensures rank { OnTrue self.now.exact (IsRankOf self.now.keys code result) }
        ensures nothing { OnFalse self.now.exact (result ≡ None) }
    {
        if !self.exact {
            return None;
        }
        self.slots.find(code)
    }

    /// The code of an index: the part that it has in the codes of lists and keys.
    pub fn index_code(&self, index: u8) -> u64
        ensures code { result ≡ code_of_index index }
        ensures small { result < 2 ^ 58 }
    {
        self.codes[index as usize]
    }

    /// The code of a list of at most 27 indices.
    pub fn list_code(&self, indices: &[u8]) -> u64
        requires { length indices.now ≤ 27 }
        ensures { result ≡ code_of_list indices.now }
    {
        list_code(&self.codes, indices)
    }

    /// The code of a key.
    pub fn key_code(&self, key: &Key) -> u64
        ensures { result ≡ code_of key.now }
    {
        key_code(&self.codes, key)
    }
}

/// Puts the rank of each key in a slot.
fn fill(slots: &mut Slots, codes: &Codes, keys: &[Key])
    requires codes { AreCodes codes.now }
    requires few { length keys.now < 2 ^ 31 }
{
    let mut rank = 0;
    for key in keys {
        slots.put(key_code(codes, key), rank);
        rank += 1;
    }
}

/// Whether the slots find the rank of each key.
fn finds_all(slots: &Slots, codes: &Codes, keys: &[Key]) -> bool
    requires codes { AreCodes codes.now }
    requires few { length keys.now < 2 ^ 31 }
    ensures { OnTrue result (FindsAll slots.now.slots.items slots.now.width keys.now) }
{
    let mut rank = 0;
    for key in keys {
        if slots.find(key_code(codes, key)) != Some(rank) {
            return false;
        }
        rank += 1;
    }
    true
}
