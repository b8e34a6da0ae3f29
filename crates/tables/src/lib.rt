// The examination of tables. It takes any slices whatever and asks nothing of its caller.
#![tactic(auto)]

ghost use Rattle.std.specs.Prelude.{◌≡◌};
ghost use Rattle.problem.specs.Tables.{tables};
ghost use Rattle.tables.specs.Examination.{examination};
ghost use Rattle.tables.specs.Replies.{examined_told};

mod examined;
mod pairs;
mod rows;
mod sizes;

pub use examined::FineTables;
use problem::{Problem, Refusal};

// Are the tables fit for a run?
pub fn examine(sizes: &[u8], pairs: &[u8], rows: &[u64]) -> Result<Problem, Refusal>
    ensures { examined_told result ≡ examination (tables sizes.now pairs.now rows.now) }
{
    let tables = FineTables::new(sizes, pairs, rows)?;
    let words = tables.row_words().len();
    Ok(Problem::of(tables.boats(), tables.pairs(), words))
}
