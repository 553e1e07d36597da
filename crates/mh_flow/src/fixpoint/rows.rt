//! Rows of bits and of numbers.
//!
//! Promise: each call changes one row by one thing; a row of bits is laid out when its first bit is wanted.
ghost use Rattle.std.specs.Prelude.{◌≡◌, ◌<◌, ◌≤◌, ◌*◌, ◌^◌, ◌⊎◌, [], true, length, vec_len, replicate, IfOk, OnOk};
ghost use Rattle.std.specs.List.{slice_index};
ghost use Rattle.mh_flow.specs.Rows.{width_at, row, IsWord, LaidOut, WordPut, Emptied, Pushed, number_rows};

use crate::fixpoint::bits::Bits;
use std::alloc::{AllocError, Global};
use std::mem::replace;

/// So many rows of bits that are not laid out.
pub fn empty_bits(alloc: Global, nodes: usize) -> Result<Vec<Bits>, AllocError>
    ensures { IfOk result (λ rows. rows.items ≡ replicate nodes []) }
{
    let mut rows = Vec::with_capacity(alloc, nodes)?;
    for _ in 0..nodes {
        rows.push(Bits::new(alloc))?;
    }
    Ok(rows)
}

/// So many rows of numbers that are empty.
pub fn empty_rows(alloc: Global, nodes: usize) -> Result<Vec<Vec<usize>>, AllocError>
    ensures { IfOk result (λ rows. number_rows rows.items ≡ replicate nodes []) }
{
    let mut rows = Vec::with_capacity(alloc, nodes)?;
    for _ in 0..nodes {
        rows.push(Vec::new(alloc))?;
    }
    Ok(rows)
}

/// How many words a row of bits has.
pub fn words_at(rows: &[Bits], node: usize) -> usize
    requires { node < length rows.now }
    ensures { 64 * result ≡ width_at rows.now node }
{
    rows[node].words()
}

/// A word of a row of bits, which is 0 behind the last one.
pub fn word_at(rows: &[Bits], node: usize, at: usize) -> u64
    requires { node < length rows.now }
    ensures { IsWord (row rows.now node) at result }
{
    rows[node].word(at)
}

/// Whether a row is known to be these bits.
pub fn is_row(rows: &[Bits], node: usize, bits: &Bits) -> bool
    requires { node < length rows.now }
    ensures { result ≡ true → row rows.now node ≡ bits.now }
{
    rows[node].is_alike(bits)
}

/// Whether two rows are known to be the same bits.
pub fn are_rows_alike(rows: &[Bits], first: usize, second: usize) -> bool
    requires first { first < length rows.now }
    requires second { second < length rows.now }
    ensures { result ≡ true → row rows.now first ≡ row rows.now second }
{
    rows[first].is_alike(&rows[second])
}

/// Lays out a row of bits, if it is not laid out.
pub fn lay_out(rows: &mut Vec<Bits>, node: usize, words: usize) -> Result<(), AllocError>
    requires node { node < vec_len rows.old }
    requires small { 64 * words ≤ 2 ^ 64 }
    requires row { (width_at rows.old.items node ≡ 0) ⊎ (width_at rows.old.items node ≡ 64 * words) }
    ensures { OnOk result (LaidOut (64 * words) node rows.old.items rows.new.items) }
{
    rows[node].lay_out(words)?;
    Ok(())
}

/// Sets the bits of a word.
pub fn put_word(rows: &mut Vec<Bits>, node: usize, at: usize, bits: u64)
    requires node { node < vec_len rows.old }
    requires at { 64 * at < width_at rows.old.items node }
    ensures { WordPut node at bits rows.old.items rows.new.items }
{
    rows[node].put(at, bits);
}

/// Takes a row of bits, and leaves an empty one.
pub fn take_row(alloc: Global, rows: &mut Vec<Bits>, node: usize) -> Bits
    requires { node < vec_len rows.old }
    ensures row { result ≡ row rows.old.items node }
    ensures left { Emptied node rows.old.items rows.new.items }
{
    replace(&mut rows[node], Bits::new(alloc))
}

/// Puts a number at the end of a row.
pub fn push_at(rows: &mut Vec<Vec<usize>>, node: usize, number: usize) -> Result<(), AllocError>
    requires node { node < vec_len rows.old }
    ensures { OnOk result (Pushed node number (number_rows rows.old.items) (number_rows rows.new.items)) }
{
    rows[node].push(number)?;
    Ok(())
}

/// How many numbers are in a row.
pub fn count_at(rows: &[Vec<usize>], node: usize) -> usize
    requires { node < length rows.now }
    ensures { result ≡ length (row (number_rows rows.now) node) }
{
    rows[node].len()
}

/// The number at a place of a row.
pub fn number_at(rows: &[Vec<usize>], node: usize, place: usize) -> usize
    requires node { node < length rows.now }
    requires place { place < length (row (number_rows rows.now) node) }
    ensures { result ≡ slice_index (row (number_rows rows.now) node) place }
{
    rows[node][place]
}
