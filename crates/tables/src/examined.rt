// Tables that have passed the examination. Whoever is handed them asks nothing more.
ghost use Rattle.std.specs.Prelude.{◌≡◌, IfOk};
ghost use Rattle.problem.specs.Tables.{tables};
ghost use Rattle.tables.specs.Examination.{examination, Fine};
ghost use Rattle.tables.specs.Replies.{tables_told};

mod looked_up;

use crate::{pairs, rows, sizes};
use problem::{Problem, Refusal};
use std::marker::Model;

#[derive(Drop)]
pub struct FineTables<'a> {
    sizes: &'a [u8],
    pairs: &'a [u8],
    rows: &'a [u64],
}

// A contract sees the tables, which keep every rule.
impl<'a> Model for FineTables<'a> {
    ghost use Rattle.problem.specs.Tables.{Tables, tables};
    ghost use Rattle.problem.specs.Sane.{Sane};

    ghost Value = { Tables };

    ghost view = { λ a. tables a.sizes.now a.pairs.now a.rows.now };

    ghost invariant = { λ a. Sane (tables a.sizes.now a.pairs.now a.rows.now) };
}

impl<'a> FineTables<'a> {
    // The examination: number by number, the first test that applies.
    pub fn new(sizes: &'a [u8], pairs: &'a [u8], rows: &'a [u64]) -> Result<Self, Refusal>
        ensures told { tables_told result ≡ examination (tables sizes.now pairs.now rows.now) }
        ensures same { IfOk result (λ t. t ≡ tables sizes.now pairs.now rows.now) }
    {
        if Problem::too_many_boats(sizes.len()) {
            return Err(Refusal::Boats);
        }
        sizes::all_good(sizes)?;
        if Problem::bad_pair_bytes(pairs.len()) {
            return Err(Refusal::PairBytes);
        }
        pairs::all_good(sizes.len(), pairs)?;
        if rows.len() != looks::start_of(sizes, pairs, pairs.len() / 2) {
            return Err(Refusal::RowWords);
        }
        rows::all_good(sizes, pairs, rows)?;
        Ok(Self { sizes, pairs, rows })
    }

    // Of tables that the examination has called fine.
    pub fn fine(sizes: &'a [u8], pairs: &'a [u8], rows: &'a [u64]) -> Self
        requires { Fine (tables sizes.now pairs.now rows.now) }
        ensures { result ≡ tables sizes.now pairs.now rows.now }
    {
        let fine = Self { sizes, pairs, rows };
        fine
    }

    // The sizes, a byte for each boat.
    pub fn size_bytes(&self) -> &'a [u8]
        ensures { result.now ≡ self.now.sizes }
    {
        self.sizes
    }

    // The listed pairs, two bytes for each.
    pub fn pair_bytes(&self) -> &'a [u8]
        ensures { result.now ≡ self.now.pairs }
    {
        self.pairs
    }

    pub fn row_words(&self) -> &'a [u64]
        ensures { result.now ≡ self.now.rows }
    {
        self.rows
    }
}
