// BT and CBJ, by their way back.
use crate::{Moving, WayBack};
use events::Counts;
use labelling::Labelled;
use std::marker::PhantomData;
use tables::FineTables;

#[derive(Drop)]
pub struct LookingBack<B>(PhantomData<B>);

impl<B: WayBack> Moving for LookingBack<B> {
    ghost use Rattle.moves.specs.declared.Moves.TheVariants.{LookingBack as MovesBack};

    ghost moves = { MovesBack B.WAY };

    fn prepare(tables: &FineTables, work: &mut [u64]) {
        moves::prepare_back(tables, work)
    }

    fn label(
        tables: &FineTables,
        i: usize,
        from: u64,
        start: Counts,
        work: &mut [u64],
    ) -> Labelled {
        labelling::label_back(B::WAY, tables, i, from, start, work)
    }

    fn unlabel(tables: &FineTables, i: usize, work: &mut [u64]) -> Option<usize> {
        unlabelling::unlabel_back(B::WAY, tables, i, work)
    }

    fn keep_set(i: usize, set: u64, work: &mut [u64]) {
        storing::store_set(i, set, work)
    }
}
