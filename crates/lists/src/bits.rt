// A set of numbers, held as the bits of words.

ghost use Rattle.std.specs.Prelude.{◌≡◌, ◌≤◌, ◌<◌, ◌+◌, ◌*◌, ℕ, [], ◌∷◌, IfOk, IsTrue, IsFalse, MatchOption, length, slice_index};
ghost use Rattle.std.specs.List.{Contains, filter};
ghost use Rattle.lists.specs.Bits.{has_bit, numbers_below, IsJoined, IsCommon, IsDifference, LiesWithin, NoneFrom, IsLeastFrom};

use crate::seq::{Faithful, Seq};
use std::alloc::{AllocError, Global};
use std::marker::Model;

/// A set of numbers. In a clause it is the list of its members, from the least on.
#[derive(Drop)]
pub struct Bits {
    words: Vec<u64>,
}

impl Model for Bits {
    ghost use Rattle.std.specs.Prelude.{List, ℕ, ◌≤◌, length};
    ghost use Rattle.lists.specs.Bits.{places_of};

    ghost Value = { List ℕ };

    ghost view = { λ b. places_of b.words.items };

    ghost invariant = { λ b. length b.words.items ≤ 288230376151711744 };
}

/// A word, or 0 behind the last one.
fn word_at(words: &[u64], at: usize) -> u64
    ensures { result ≡ slice_index words.now at }
{
    match words.get(at) {
        None => 0,
        Some(word) => *word,
    }
}

/// Whether the bit of a place is set.
fn is_set(words: &[u64], place: usize) -> bool
    ensures { result ≡ has_bit words.now place }
{
    (word_at(words, place / 64) >> (place % 64)) & 1 == 1
}

/// Puts empty words behind the others, up to so many.
fn grow_to(words: &mut Vec<u64>, count: usize) -> Result<(), AllocError>
    ensures room { IfOk result (λ _. count ≤ length words.new.items) }
    ensures bound { (bound : ℕ) → length words.old.items ≤ bound → count ≤ bound
        → length words.new.items ≤ bound }
    ensures same { (k : ℕ) → slice_index words.new.items k ≡ slice_index words.old.items k }
{
    while words.len() < count {
        words.push(0)?;
    }
    Ok(())
}

/// Puts the places of the word at a place behind those of the words before it.
fn push_places(places: &mut Vec<usize>, words: &[u64], at: usize) -> Result<(), AllocError>
    requires within { at < 288230376151711744 }
    requires before { places.old.items ≡ filter (has_bit words.now) (numbers_below (64 * at)) }
    ensures { IfOk result (λ _. places.new.items
        ≡ filter (has_bit words.now) (numbers_below (64 * (at + 1)))) }
{
    for bit in 0..64 {
        let place = at * 64 + bit;
        if is_set(words, place) {
            places.push(place)?;
        }
    }
    Ok(())
}

impl Bits {
    /// The empty set.
    pub fn new(alloc: Global) -> Bits
        ensures { result ≡ [] }
    {
        Bits {
            words: Vec::new(alloc),
        }
    }

    /// Whether a number is in the set.
    pub fn has(&self, place: usize) -> bool
        ensures there { IsTrue result → Contains self.now place }
        ensures absent { IsFalse result → Contains self.now place → ⊥ }
    {
        is_set(self.words.as_slice(), place)
    }

    /// Whether the set is empty.
    pub fn is_empty(&self) -> bool
        ensures empty { IsTrue result → (n : ℕ) → Contains self.now n → ⊥ }
        ensures some { IsFalse result → (n : ℕ) × Contains self.now n }
    {
        match self.first_from(0) {
            None => true,
            Some(_) => false,
        }
    }

    /// Whether each number of this set is in the other.
    pub fn lies_within(&self, other: &Bits) -> bool
        ensures within { IsTrue result → LiesWithin self.now other.now }
        ensures not { IsFalse result → LiesWithin self.now other.now → ⊥ }
    {
        for at in 0..self.words.len() {
            if self.words[at] & !word_at(other.words.as_slice(), at) != 0 {
                return false;
            }
        }
        true
    }

    /// Whether the sets have a number in common.
    pub fn meets(&self, other: &Bits) -> bool
        ensures common { IsTrue result → (n : ℕ) × Contains self.now n × Contains other.now n }
        ensures apart { IsFalse result → (n : ℕ) → Contains self.now n → Contains other.now n
            → ⊥ }
    {
        for at in 0..self.words.len() {
            if self.words[at] & word_at(other.words.as_slice(), at) != 0 {
                return true;
            }
        }
        false
    }

    /// The least number of the set from a bound on.
    pub fn first_from(&self, bound: usize) -> Option<usize>
        ensures { MatchOption result (NoneFrom self.now bound) (IsLeastFrom self.now bound) }
    {
        let mut at = bound / 64;
        let mut low = bound % 64;
        while at < self.words.len() {
            let rest = self.words[at] >> low;
            if rest != 0 {
                return Some(at * 64 + (low + rest.trailing_zeros() as usize));
            }
            at += 1;
            low = 0;
        }
        None
    }

    /// Puts a number in.
    pub fn insert(&mut self, place: usize) -> Result<(), AllocError>
        ensures { IfOk result (λ _. IsJoined self.new self.old (place ∷ [])) }
    {
        let at = place / 64;
        grow_to(&mut self.words, at + 1)?;
        self.words[at] |= 1u64 << (place % 64);
        Ok(())
    }

    /// Takes a number out.
    pub fn remove(&mut self, place: usize)
        ensures { IsDifference self.new self.old (place ∷ []) }
    {
        let at = place / 64;
        if at < self.words.len() {
            self.words[at] &= !(1u64 << (place % 64));
        }
    }

    /// Puts the numbers of the other set in.
    pub fn join(&mut self, other: &Bits) -> Result<(), AllocError>
        ensures { IfOk result (λ _. IsJoined self.new self.old other.now) }
    {
        grow_to(&mut self.words, other.words.len())?;
        for at in 0..other.words.len() {
            self.words[at] |= other.words[at];
        }
        Ok(())
    }

    /// Keeps the numbers that the other set has too.
    pub fn keep(&mut self, other: &Bits)
        ensures { IsCommon self.new self.old other.now }
    {
        for at in 0..self.words.len() {
            self.words[at] &= word_at(other.words.as_slice(), at);
        }
    }

    /// Takes the numbers of the other set out.
    pub fn cut(&mut self, other: &Bits)
        ensures { IsDifference self.new self.old other.now }
    {
        for at in 0..self.words.len() {
            self.words[at] &= !word_at(other.words.as_slice(), at);
        }
    }

    /// The numbers of the set, from the least on.
    pub fn places(&self, alloc: Global) -> Result<Seq<usize>, AllocError>
        ensures { IfOk result (λ places. places ≡ self.now) }
    {
        let mut places = Vec::new(alloc);
        for at in 0..self.words.len() {
            push_places(&mut places, self.words.as_slice(), at)?;
        }
        Ok(Seq::from_vec(places))
    }
}

impl Clone for Bits {
    ghost is_clone = { λ s t. t ≡ s };

    fn clone(&self) -> Result<Bits, AllocError> {
        let words = self.words.clone()?;
        Ok(Bits { words })
    }
}

impl Faithful for Bits {
    ghost clone_is_source = { λ x y h. h };
}
