//! What is told of the 60 cells of a row by the lowest 60 bits of one number, a bit for each column.
ghost use Rattle.std.specs.Prelude.{◌≡◌, ◌+◌, ◌*◌, ◌-◌, ◌%◌, ◌^◌, ◌<◌, ◌≤◌, ◌&&◌, nat_lt, length, bit_and};
ghost use Rattle.std.specs.Int.{trailing_zeros, w64};
ghost use Rattle.mh_told.specs.Masks.{Tells, TellsEight, IsBehindBits, changes, is_last, is_written};

use mh_model::Picture;
use mh_model::picture::COLUMNS;
use std::simd::prelude::*;

/// How many numbers are looked at together.
const LANES: usize = 8;

/// In which columns of a row a run ends: the next cell has other colours, or there is none.
pub(crate) fn lasts_of(picture: &Picture, row: usize) -> u64
    requires { row < 36 }
    ensures { Tells (is_last picture.now row) result }
{
    let start = row * COLUMNS;
    changes_in(picture.fores(), start) | changes_in(picture.backs(), start) | 1 << 59
}

/// Which of the 60 numbers from this place on are others than the one behind them; of the last one it tells
/// nothing.
fn changes_in(plane: &[u32], start: usize) -> u64
    requires { start + 60 ≤ length plane.now }
    ensures { Tells (λ k. nat_lt k 59 && changes plane.now (start + k)) result }
{
    let mut bits = 0;
    let mut at = 0;
    while at < 56 {
        bits |= changes_at(plane, start + at) << at;
        at += LANES;
    }
    bits | changes_at(plane, start + 51) << 51
}

/// Which of eight numbers are others than the one behind them.
#[inline(always)]
fn changes_at(plane: &[u32], at: usize) -> u64
    requires { at + 9 ≤ length plane.now }
    ensures { TellsEight (changes plane.now) at result }
{
    let these = u32x8::from_slice(&plane[at..]);
    let next = u32x8::from_slice(&plane[at + 1..]);
    these.simd_ne(next).to_bitmask()
}

/// Which of the 60 characters from this place on are no spaces.
pub(crate) fn written_in(scalars: &[u32], start: usize) -> u64
    requires { start + 60 ≤ length scalars.now }
    ensures { Tells (λ k. is_written scalars.now (start + k)) result }
{
    let mut bits = 0;
    let mut at = 0;
    while at < 56 {
        bits |= written_at(scalars, start + at) << at;
        at += LANES;
    }
    bits | written_at(scalars, start + 52) << 52
}

/// Which of eight characters are no spaces.
#[inline(always)]
fn written_at(scalars: &[u32], at: usize) -> u64
    requires { at + 8 ≤ length scalars.now }
    ensures { TellsEight (is_written scalars.now) at result }
{
    let these = u32x8::from_slice(&scalars[at..]);
    these.simd_ne(u32x8::splat(32)).to_bitmask()
}

/// The number of the lowest bit.
#[inline(always)]
pub(crate) fn lowest(bits: u64) -> usize
    requires { 0 < bits }
    ensures { result ≡ trailing_zeros w64 bits }
{
    bits.trailing_zeros() as usize
}

/// The bits without this one.
#[inline(always)]
pub(crate) fn without(bits: u64, column: usize) -> u64
    requires { column < 60 }
    ensures { result ≡ bit_and bits (18446744073709551615 - 1 * 2 ^ column % 18446744073709551616) }
{
    bits & !(1 << column)
}

/// The bits below this one.
#[inline(always)]
pub(crate) fn below(bits: u64, column: usize) -> u64
    requires { column ≤ 60 }
    ensures { result ≡ bits % 2 ^ column }
{
    bits & ((1 << column) - 1)
}

/// The place behind the highest bit.
#[inline(always)]
pub(crate) fn behind_bits(bits: u64) -> usize
    ensures { IsBehindBits bits result }
{
    64 - bits.leading_zeros() as usize
}
