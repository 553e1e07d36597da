//! What holds of every lay-out, as laws over the definitions.
ghost use Rattle.mh_layout.specs.Laws.{OneDivision, ColumnsAreCovered, RowsAreCovered};

/// The law that for a width above 0 each paragraph has one division into lines, the one that is laid out.
pub fn one_division()
    ensures { OneDivision }
{}

/// The law that a box covers a column, on the screen or off it, exactly where the column is one of as many
/// from its first column on.
pub fn columns_are_covered()
    ensures { ColumnsAreCovered }
{}

/// The law that a box covers a row, on the screen or off it, exactly where the row is one of as many from
/// its first row on.
pub fn rows_are_covered()
    ensures { RowsAreCovered }
{}
