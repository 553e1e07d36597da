//! Cells of the picture as bits: a number for each row, of which the lowest 60 bits are its cells.
ghost use Rattle.std.specs.Prelude.{◌≡◌, ◌+◌, ◌*◌, ◌-◌, ◌%◌, ◌^◌, ◌<◌, ◌≤◌, ℕ, true, false, bit_and};
ghost use Rattle.std.specs.Int.{bit_at, w64, trailing_zeros};
ghost use Rattle.mh_display.specs.Bits.{IsStretch};
ghost use Rattle.mh_display.specs.Painting.{IsBetween, IsSet};
ghost use Rattle.mh_display.specs.Surface.{AreInRows, is_in};

/// The bits from the first up to the last.
#[inline(always)]
pub(crate) fn stretch(first: usize, last: usize) -> u64
    requires { last ≤ 60 }
    ensures { IsStretch result first last }
{
    bit(last).saturating_sub(bit(first.min(60)))
}

/// The bit with this number.
#[inline(always)]
fn bit(column: usize) -> u64
    requires { column ≤ 60 }
    ensures { result ≡ 2 ^ column }
{
    1 << column
}

/// The number of the lowest bit.
#[inline(always)]
pub(crate) fn lowest(bits: u64) -> usize
    requires { 0 < bits }
    ensures { result ≡ trailing_zeros w64 bits }
{
    bits.trailing_zeros() as usize
}

/// The bits without the lowest.
#[inline(always)]
pub(crate) fn without(bits: u64, column: usize) -> u64
    requires { column < 60 }
    ensures { result ≡ bit_and bits (18446744073709551615 - 1 * 2 ^ column % 18446744073709551616) }
{
    bits & !(1 << column)
}

/// Whether the cell in this row and column has its bit.
#[inline(always)]
pub(crate) fn has(rows: &[u64; 36], row: usize, column: usize) -> bool
    requires low { row < 36 }
    requires wide { column < 60 }
    ensures { result ≡ is_in rows.now (60 * row + column) }
{
    (rows[row] >> column) & 1 == 1
}

/// Gives the cell in this row and column its bit, or takes it.
#[inline(always)]
pub(crate) fn set(rows: &mut [u64; 36], row: usize, column: usize, on: bool)
    requires low { row < 36 }
    requires wide { column < 60 }
    ensures { IsSet (is_in rows.old) (is_in rows.new) (60 * row + column) on }
{
    if on {
        rows[row] |= 1 << column;
    } else {
        rows[row] &= !(1 << column);
    }
}

/// Gives the cells of a row, from the first up to the last, their bits.
#[inline(always)]
pub(crate) fn add(rows: &mut [u64; 36], row: usize, bits: u64, first: usize, last: usize)
    requires low { row < 36 }
    requires wide { last ≤ 60 }
    requires own { IsStretch bits first last }
    ensures { IsBetween (λ c b. true) (is_in rows.old) (is_in rows.new) (60 * row + first) (60 * row + last) }
{
    rows[row] |= bits;
}

/// The rows in which a cell has its bit, as bits.
pub(crate) fn rows_of(rows: &[u64; 36]) -> u64
    ensures { AreInRows result rows.now }
{
    let mut found = 0;
    for row in 0..36 {
        if rows[row] != 0 {
            found |= 1 << row;
        }
    }
    found
}

/// These rows, and this one too if it is wanted.
#[inline(always)]
pub(crate) fn with_row(rows: u64, row: usize, wanted: bool) -> u64
    requires { row < 36 }
    ensures others { (k : ℕ) → bit_at result k ≡ 0 → bit_at rows k ≡ 0 }
    ensures own { wanted ≡ true → bit_at result row ≡ 1 }
{
    if wanted { rows | 1 << row } else { rows }
}

/// Whether no cell has its bit.
pub(crate) fn has_none(rows: &[u64; 36]) -> bool
    ensures { result ≡ true → (c : ℕ) → is_in rows.now c ≡ false }
{
    for row in 0..36 {
        if rows[row] != 0 {
            return false;
        }
    }
    true
}
