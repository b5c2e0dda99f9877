//! Conditions (CQL reference, "IF").

ghost use Rattle.std.specs.Prelude.{◌≡◌, ◌==◌, option_copied};
ghost use Rattle.std.specs.List.{find, list_all};
ghost use Rattle.std.specs.Option.{option_map};
ghost use Rattle.condition_test.specs.Conditions.{cell_holds as cell_holds_of, condition_holds, holds_at, holds_of_null, value_in};

use crate::order::compare;
use changes::{ShownCell, ShownRow};
use cs_base::Bytes;
use statement_plan::{CellTest, Compare, Test};
use std::cmp::Ordering;

fn cell_at(cells: &[ShownCell], column: u8) -> Option<&ShownCell>
    ensures { option_copied result ≡ find (λ c. c.column == column) cells.now }
{
    cells.iter().find(|cell| cell.column == column)
}

fn value_at(cells: &[ShownCell], column: u8) -> Option<&Bytes>
    ensures { option_copied result ≡ option_map (λ c. c.value) (find (λ c. c.column == column) cells.now) }
{
    cell_at(cells, column).map(|cell| &cell.value)
}

fn value_in(row: Option<&ShownRow>, column: u8) -> Option<&Bytes>
    ensures { option_copied result ≡ value_in column (option_copied row.entry) }
{
    match row {
        Some(row) => value_at(row.cells.as_slice(), column),
        None => None,
    }
}

fn holds_at(compare: Compare, ordering: Ordering) -> bool
    ensures { result ≡ holds_at compare ordering }
{
    match compare {
        Compare::Equal => ordering.is_eq(),
        Compare::NotEqual => ordering.is_ne(),
        Compare::Less => ordering.is_lt(),
        Compare::LessOrEqual => ordering.is_le(),
        Compare::Greater => ordering.is_gt(),
        Compare::GreaterOrEqual => ordering.is_ge(),
    }
}

/// Where one of the two is null, or both are.
fn holds_of_null(compare: Compare, both: bool) -> bool
    ensures { result ≡ holds_of_null compare both }
{
    match compare {
        Compare::Equal => both,
        Compare::NotEqual => !both,
        Compare::Less | Compare::LessOrEqual | Compare::Greater | Compare::GreaterOrEqual => false,
    }
}

fn cell_holds(row: Option<&ShownRow>, test: &CellTest) -> bool
    ensures { result ≡ cell_holds_of (option_copied row.entry) test.now }
{
    match (value_in(row, test.column), &test.value) {
        (Some(a), Some(b)) => {
            let ordering = compare(test.order, a.as_slice(), b.as_slice());
            holds_at(test.compare, ordering)
        }
        (None, None) => holds_of_null(test.compare, true),
        _ => holds_of_null(test.compare, false),
    }
}

fn all_hold(row: Option<&ShownRow>, tests: &[CellTest]) -> bool
    ensures { result ≡ list_all (cell_holds_of (option_copied row.entry)) tests.now }
{
    tests.iter().all(|test| cell_holds(row, test))
}

/// Whether a condition holds of a row, or of one that is not there. Values are in the encoding of the native protocol, and
/// both that a test compares are of its column's type: the order that it names is then that of the type.
pub fn holds(row: Option<&ShownRow>, test: &Test) -> bool
    ensures { result ≡ condition_holds (option_copied row.entry) test.now }
{
    match test {
        Test::Absent => row.is_none(),
        Test::Present => row.is_some(),
        Test::Cells(tests) => all_hold(row, tests.as_slice()),
        Test::Read(_) => false,
    }
}
