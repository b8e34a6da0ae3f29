// Run a method.
use crate::group::Tables;
use crate::hex::Hex;
use crate::lent;
use crate::lent::Dirt;
use crate::told::Told;
use reading::Fields;
use std::alloc::Global;
use std::io;
use std::io::Write;

// Room for the memory that the stored problems lend; some of it is more than a run needs.
const PLAN: usize = 512;

const WORDS: usize = 9216;

// No slot: what a plan holds before the run.
const NO_SLOT: u8 = 255;

// A run that is to be lent more than there is room for is not made.
pub fn run(
    mut fields: Fields,
    tables: &Tables,
    alloc: Global,
    out: &mut impl Write,
) -> io::Result<()> {
    let [method, checks, trials, bytes, words] = fields.numbers::<5>();
    let (bytes, words) = (bytes as usize, words as usize);
    if PLAN < bytes || WORDS < words {
        return Ok(());
    }
    let mut plan = vec![in alloc; NO_SLOT; bytes]?;
    let mut work: Vec<u64> = lent::memory(alloc, words)?;
    let Tables { sizes, pairs, rows } = tables;
    let reply = planner::run(
        method, sizes, pairs, rows, &mut plan, &mut work, checks, trials,
    );
    let told = Told::from(reply.answer);
    write!(out, "r {told} {} {}", reply.checks, reply.trials)?;
    measure(&plan, &work, out)
}

// The bytes that changed and how many they are, how far the words changed, and how many of those are not 0.
fn measure(plan: &[u8], work: &[u64], out: &mut impl Write) -> io::Result<()> {
    let plan = lent::changed(plan, |_| NO_SLOT);
    let work = lent::changed(work, u64::at);
    let not_zero = lent::not_zero(work);
    let bytes = Hex::bytes(plan);
    writeln!(out, " {bytes} {} {} {not_zero}", plan.len(), work.len())
}
