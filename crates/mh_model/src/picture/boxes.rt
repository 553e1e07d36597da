//! Which columns and rows of cells a box covers.
ghost use Rattle.std.specs.Prelude.{◌≡◌, ◌^◌, ◌-ℤ◌};
ghost use Rattle.mh_model.specs.Boxes.{column_from, row_from, IsNear, or_zero, first_column, first_row, columns_of, rows_of};

use mh_base::Area;

/// The first column that the box covers, if it covers any.
pub fn first_column(area: &Area) -> i64
    ensures number { result ≡ first_column area.now }
    ensures near { IsNear (2 ^ 29) result }
{
    column_from(i64::from(area.x))
}

/// The first row that the box covers, if it covers any.
pub fn first_row(area: &Area) -> i64
    ensures number { result ≡ first_row area.now }
    ensures near { IsNear (2 ^ 29) result }
{
    row_from(i64::from(area.y))
}

/// How many columns the box covers.
pub fn columns_of(area: &Area) -> u32
    ensures { result ≡ columns_of area.now }
{
    let end = column_from(i64::from(area.x) + i64::from(area.width));
    count_between(first_column(area), end)
}

/// How many rows the box covers.
pub fn rows_of(area: &Area) -> u32
    ensures { result ≡ rows_of area.now }
{
    let end = row_from(i64::from(area.y) + i64::from(area.height));
    count_between(first_row(area), end)
}

/// How many numbers there are from the first on, before the end.
fn count_between(first: i64, end: i64) -> u32
    requires low { IsNear (2 ^ 29) first }
    requires high { IsNear (2 ^ 29) end }
    ensures { result ≡ or_zero (end -ℤ first) }
{
    if end < first { 0 } else { (end - first) as u32 }
}

fn column_from(unit: i64) -> i64
    requires { IsNear (2 ^ 32) unit }
    ensures number { result ≡ column_from unit }
    ensures near { IsNear (2 ^ 29) result }
{
    (unit + 11).div_euclid(12)
}

fn row_from(unit: i64) -> i64
    requires { IsNear (2 ^ 32) unit }
    ensures number { result ≡ row_from unit }
    ensures near { IsNear (2 ^ 29) result }
{
    (unit + 15).div_euclid(16)
}
