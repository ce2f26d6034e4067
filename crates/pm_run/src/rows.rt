//! Rows of tables.

ghost use Rattle.std.specs.Prelude.{◌≡◌};
ghost use Rattle.pm_run.specs.Rows.{row_if, size_row};

use pm_goal::Row;
use pm_logic::{MAX_HYPOTHESES, MAX_LEVELS, MAX_NODES, MAX_VARIABLES};

/// The row, if it holds, and else the row that others answer.
pub fn row_if(holds: bool, row: Row, others: Option<Row>) -> Option<Row>
    ensures { result ≡ row_if holds row others }
{
    if holds { Some(row) } else { others }
}

/// The row for so many variables and hypotheses, of so many nodes with the conclusion and so deep, and else the row that
/// others answer.
pub fn size_row(
    vars: usize,
    count: usize,
    all: u64,
    deepest: u32,
    others: Option<Row>,
) -> Option<Row>
    ensures { result ≡ size_row vars count all deepest others }
{
    let deep = row_if(deepest > MAX_LEVELS, Row::TooDeep, others);
    let large = row_if(all > MAX_NODES, Row::TooManyNodes, deep);
    let many = row_if(count > MAX_HYPOTHESES, Row::TooManyHypotheses, large);
    row_if(vars > MAX_VARIABLES, Row::TooManyVariables, many)
}
