// The questions about a given plan and about a pair's rows. Each takes any slices whatever and asks nothing of its caller.
#![tactic(auto)]

ghost use Rattle.std.specs.Prelude.{◌≡◌};
ghost use Rattle.problem.specs.Tables.{tables};
ghost use Rattle.questions.specs.Questions.{lawful_question, broken_question, rows_shown, shown_rows};
ghost use Rattle.questions.specs.Replies.{judged_told, broken_told};

mod given;

use problem::Refusal;
use std::ops::Range;
use tables::FineTables;

// Is the given plan lawful?
#[tactic(auto, using(crate::proofs::Judging::refused_alike))]
pub fn is_lawful(sizes: &[u8], pairs: &[u8], rows: &[u64], plan: &[u8]) -> Result<bool, Refusal>
    ensures { judged_told result ≡ lawful_question (tables sizes.now pairs.now rows.now) plan.now }
{
    let lawful = first_broken(sizes, pairs, rows, plan)?.is_none();
    Ok(lawful)
}

// Which is the first listed pair that the given plan breaks, if it breaks one?
#[tactic(auto, using(crate::proofs::Judging::refused_first))]
pub fn first_broken(
    sizes: &[u8],
    pairs: &[u8],
    rows: &[u64],
    plan: &[u8],
) -> Result<Option<usize>, Refusal>
    ensures { broken_told result ≡ broken_question (tables sizes.now pairs.now rows.now) plan.now }
{
    let tables = FineTables::new(sizes, pairs, rows)?;
    given::broken_pair(&tables, plan)
}

// Where do the rows of two boats' pair stand?
pub fn place_of_rows(
    sizes: &[u8],
    pairs: &[u8],
    rows: &[u64],
    lower: usize,
    higher: usize,
) -> Range<usize>
    ensures { result ≡ rows_shown (tables sizes.now pairs.now rows.now) lower higher }
{
    let Ok(tables) = FineTables::new(sizes, pairs, rows) else {
        return 0..0;
    };
    let Some(pair) = tables.place(lower, higher) else {
        return 0..0;
    };
    let from = tables.start(pair);
    let to = from + tables.size(lower);
    from..to
}

// The rows of two boats' pair, as a part of the caller's own words.
#[tactic(auto, using(crate::proofs::Shown::shown_inside))]
pub fn rows_of_pair<'a>(
    sizes: &[u8],
    pairs: &[u8],
    rows: &'a [u64],
    lower: usize,
    higher: usize,
) -> &'a [u64]
    ensures { result.now ≡ shown_rows (tables sizes.now pairs.now rows.now) lower higher }
{
    let part = place_of_rows(sizes, pairs, rows, lower, higher);
    &rows[part.start..part.end]
}
