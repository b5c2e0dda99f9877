//! What is so of every schema, which each call of a function of this module gives to its caller.

ghost use Rattle.schema_book.specs.Laws.{RefusalsAreFirst, TablesAreNumbered, TablesAreFew, ColumnsAreFew, ColumnsAreInOrder, TablesAreFound};

/// Of a list that is refused, the statements before the one that is named make a schema, and that one can't follow them.
pub fn refusals_are_first()
    ensures { RefusalsAreFirst }
{}

/// The number of a table is its place.
pub fn tables_are_numbered()
    ensures { TablesAreNumbered }
{}

/// There are at most 1,024 tables.
pub fn tables_are_few()
    ensures { TablesAreFew }
{}

/// A table has at most 256 columns.
pub fn columns_are_few()
    ensures { ColumnsAreFew }
{}

/// A table's columns are those of the partition key, then the clustering columns, then the others by name.
pub fn columns_are_in_order()
    ensures { ColumnsAreInOrder }
{}

/// A look-up by a table's names finds that table.
pub fn tables_are_found()
    ensures { TablesAreFound }
{}
