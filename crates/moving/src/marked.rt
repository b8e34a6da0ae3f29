// BM.
use crate::Moving;
use events::Counts;
use labelling::Labelled;
use tables::FineTables;

#[derive(Drop)]
pub struct Marking;

impl Moving for Marking {
    ghost use Rattle.moves.specs.declared.Moves.TheVariants.{Marking as MovesMarking};

    ghost moves = { MovesMarking };

    fn prepare(tables: &FineTables, work: &mut [u64]) {
        moves::prepare_marked(tables, work)
    }

    fn label(
        tables: &FineTables,
        i: usize,
        from: u64,
        start: Counts,
        work: &mut [u64],
    ) -> Labelled {
        labelling::label_marked(tables, i, from, start, work)
    }

    fn unlabel(tables: &FineTables, i: usize, work: &mut [u64]) -> Option<usize> {
        unlabelling::unlabel_marked(tables, i, work)
    }

    // BM has no sets.
    fn keep_set(_i: usize, _set: u64, _work: &mut [u64]) {}
}
