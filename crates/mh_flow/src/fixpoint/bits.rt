//! A row of bits, kept in words of 64.
//!
//! Promise: a row is seen as the list of its bits; it is empty until it is laid out, and then has 64 bits a word.
ghost use Rattle.std.specs.Int.{bit_at};
ghost use Rattle.std.specs.Prelude.{◌≡◌, true, ◌==◌, ◌<◌, ◌≤◌, ◌+◌, ◌*◌, ◌^◌, ◌++◌, [], drop, length, replicate, IfOk, OnOk};
ghost use Rattle.mh_flow.specs.Rows.{is_at, laid, places_from, IsWord, HasPut};

use std::alloc::{AllocError, Global};
use std::marker::Model;

/// A row of bits.
#[derive(Drop)]
pub struct Bits {
    words: Vec<u64>,
}

impl Model for Bits {
    ghost use Rattle.std.specs.Prelude.{List, Bool, ◌*◌, ◌≤◌, ◌^◌, length};
    ghost use Rattle.mh_flow.specs.Rows.{bits_from};

    ghost Value = { List Bool };

    ghost view = { λ b. bits_from b.words.items 0 (64 * length b.words.items) };

    ghost invariant = { λ b. 64 * length b.words.items ≤ 2 ^ 64 };
}

impl Bits {
    /// A row that is empty.
    pub fn new(alloc: Global) -> Self
        ensures { result ≡ [] }
    {
        Bits {
            words: Vec::new(alloc),
        }
    }

    /// How many words it has.
    pub fn words(&self) -> usize
        ensures { 64 * result ≡ length self.now }
    {
        self.words.len()
    }

    /// Gives an empty row this many words, of which no bit is set.
    pub fn lay_out(&mut self, words: usize) -> Result<(), AllocError>
        requires { 64 * words ≤ 2 ^ 64 }
        ensures { OnOk result (self.new ≡ laid (64 * words) self.old) }
    {
        if self.words.is_empty() {
            push_zeros(&mut self.words, words)?;
        }
        Ok(())
    }

    /// The word at this place, which is 0 behind the last one.
    pub fn word(&self, at: usize) -> u64
        ensures { IsWord self.now at result }
    {
        if at < self.words.len() {
            self.words[at]
        } else {
            0
        }
    }

    /// Sets the bits of a word.
    pub fn put(&mut self, at: usize, bits: u64)
        requires { 64 * at < length self.old }
        ensures { HasPut at bits self.old self.new }
    {
        self.words[at] |= bits;
    }

    /// Whether the bit is set.
    pub fn has(&self, place: usize) -> bool
        ensures { result ≡ is_at self.now place }
    {
        is_set(self.word(place / 64), place % 64)
    }

    /// The places of the bits that are set. A word of which none is set is passed over at once.
    pub fn places(&self, alloc: Global) -> Result<Vec<usize>, AllocError>
        ensures { IfOk result (λ found. found.items ≡ places_from 0 self.now) }
    {
        let mut found = Vec::new(alloc);
        for at in 0..self.words.len() {
            if self.words[at] != 0 {
                self.put_places(&mut found, at)?;
            }
        }
        Ok(found)
    }

    /// Puts the places of the bits that are set in a word behind those that were found.
    fn put_places(&self, found: &mut Vec<usize>, at: usize) -> Result<(), AllocError>
        requires { 64 * at < length self.now }
        ensures { OnOk result (found.new.items ++ places_from (64 * at + 64) (drop (64 * at + 64) self.now)
            ≡ found.old.items ++ places_from (64 * at) (drop (64 * at) self.now)) }
    {
        let word = self.words[at];
        for bit in 0..64 {
            if is_set(word, bit) {
                found.push(64 * at + bit)?;
            }
        }
        Ok(())
    }

    /// Whether both are known to be the same bits.
    pub fn is_alike(&self, other: &Bits) -> bool
        ensures { result ≡ true → self.now ≡ other.now }
    {
        are_alike(self.words.as_slice(), other.words.as_slice())
    }

    /// A number that is the same for the same bits.
    pub fn mark(&self) -> u64 {
        let mut mark: u64 = 0;
        for word in &self.words {
            mark = (mark.rotate_left(5) ^ *word).wrapping_mul(0x9E37_79B9_7F4A_7C15);
        }
        mark
    }
}

/// Whether both are the same words.
fn are_alike(first: &[u64], second: &[u64]) -> bool
    ensures { result ≡ true → first.now ≡ second.now }
{
    first == second
}

fn push_zeros(words: &mut Vec<u64>, count: usize) -> Result<(), AllocError>
    ensures zeros { OnOk result (words.new.items ≡ words.old.items ++ replicate count 0) }
    ensures short { length words.new.items ≤ length words.old.items + count }
{
    words.reserve(count)?;
    for _ in 0..count {
        words.push(0)?;
    }
    Ok(())
}

/// Whether the bit is set in the word.
fn is_set(word: u64, bit: usize) -> bool
    requires { bit < 64 }
    ensures { result ≡ (bit_at word bit == 1) }
{
    (word >> bit) & 1 == 1
}
