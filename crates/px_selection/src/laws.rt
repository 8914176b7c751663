//! Laws of rows that are selected, as functions that do nothing.
ghost use Rattle.px_selection.specs.Laws.{NullsAddUp, NotNullDropsNulls, ReverseUndoesReverse, AppendKeepsItsParts};

/// The number of nulls and the number of rows without nulls add up to the number of rows.
pub fn nulls_add_up()
    ensures { NullsAddUp }
{}

/// To filter by `is_not_null` is `drop_nulls`.
pub fn not_null_drops_nulls()
    ensures { NotNullDropsNulls }
{}

/// In reverse twice the rows are as before.
pub fn reverse_undoes_reverse()
    ensures { ReverseUndoesReverse }
{}

/// From two columns that were appended, slices by their lengths give each of them back.
pub fn append_keeps_its_parts()
    ensures { AppendKeepsItsParts }
{}
