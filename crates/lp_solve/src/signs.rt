//! Tests of one entry of a dictionary.
ghost use Rattle.std.specs.Prelude.{◌≡◌, ◌≢◌, ◌<◌, ◌≤◌, ◌↔◌, pos, length, get_or, IsTrue};
ghost use Rattle.lp_dict.specs.Dictionaries.{entry_at};
ghost use Rattle.lp_solve.specs.Rule.{HasEntry, IsBelow, Raises, Lowers, Limits};

use lp_dict::Dict;

/// Whether the row is a slack's and has an entry other than 0 in the column.
pub(crate) fn has_entry(dict: &Dict, columns: usize, row: usize, column: usize) -> bool
    requires columns { columns ≡ length dict.now.outside }
    requires row_there { row < length dict.now.basic }
    requires column_there { column < length dict.now.outside }
    ensures { IsTrue result ↔ HasEntry dict.now column row }
{
    dict.basic(row) as usize >= columns && dict.entry(row, column).num() != 0
}

/// Whether the row is that of a slack below 0.
pub(crate) fn is_below(dict: &Dict, columns: usize, row: usize) -> bool
    requires columns { columns ≡ length dict.now.outside }
    requires row_there { row < length dict.now.basic }
    ensures { IsTrue result ↔ IsBelow dict.now row }
{
    dict.basic(row) as usize >= columns && dict.entry(row, columns).num() < 0
}

/// Whether the column is that of a slack whose growth raises the variable of the row.
pub(crate) fn raises(dict: &Dict, columns: usize, row: usize, column: usize) -> bool
    requires columns { columns ≡ length dict.now.outside }
    requires row_there { row < length dict.now.basic }
    requires column_there { column < length dict.now.outside }
    ensures { IsTrue result ↔ Raises dict.now row column }
{
    dict.outside(column) as usize >= columns && dict.entry(row, column).num() > 0
}

/// Whether the column is that of a slack whose growth lowers the form.
pub(crate) fn lowers(dict: &Dict, rows: usize, columns: usize, column: usize) -> bool
    requires rows { rows ≡ length dict.now.basic }
    requires columns { columns ≡ length dict.now.outside }
    requires column_there { column < length dict.now.outside }
    ensures { IsTrue result ↔ Lowers dict.now column }
{
    dict.outside(column) as usize >= columns && dict.entry(rows, column).num() < 0
}

/// Whether the row is that of a slack which the growth of the column lowers.
pub(crate) fn limits(dict: &Dict, columns: usize, row: usize, column: usize) -> bool
    requires columns { columns ≡ length dict.now.outside }
    requires row_there { row < length dict.now.basic }
    requires column_there { column < length dict.now.outside }
    ensures { IsTrue result ↔ Limits dict.now column row }
{
    dict.basic(row) as usize >= columns && dict.entry(row, column).num() < 0
}
