// Numbers 51 to 54: the listed pairs.
ghost use Rattle.std.specs.Prelude.{◌≡◌, ◌<◌};
ghost use Rattle.problem.specs.Tables.{listed};
ghost use Rattle.tables.specs.Tests.{each_way};
ghost use Rattle.tables.specs.Examination.{equal_or_below, not_rising, first_way_bad};
ghost use Rattle.tables.specs.Ways.{IsWay, IsFirst};

use problem::Refusal;

// A pair is equal to or below an earlier one: by its lower boat, then by its higher.
fn is_equal_or_below(pairs: &[u8], pair: usize, before: usize) -> bool
    requires pair_bound { pair < listed pairs.now }
    requires before_bound { before < listed pairs.now }
    ensures { result ≡ equal_or_below pairs.now pair before }
{
    let low = looks::lower_of(pairs, pair);
    let low_before = looks::lower_of(pairs, before);
    if low < low_before {
        return true;
    }
    low == low_before && looks::higher_of(pairs, pair) <= looks::higher_of(pairs, before)
}

// A pair is equal to or below the one before; the first has none before it.
fn is_not_rising(pairs: &[u8], pair: usize) -> bool
    requires { pair < listed pairs.now }
    ensures { result ≡ not_rising pairs.now pair }
{
    if pair == 0 {
        return false;
    }
    is_equal_or_below(pairs, pair, pair - 1)
}

// The pair is good; or the first of the four ways in which it is bad, with its byte.
fn good_way(boats: usize, pairs: &[u8], pair: usize) -> Result<(), Refusal>
    requires { pair < listed pairs.now }
    ensures { IsWay result (first_way_bad boats pairs.now pair) }
{
    let low = looks::lower_of(pairs, pair);
    let high = looks::higher_of(pairs, pair);
    let first = 2 * pair;
    let second = first + 1;
    if boats <= low {
        return Err(Refusal::PairNoBoat(first));
    }
    if boats <= high {
        return Err(Refusal::PairNoBoat(second));
    }
    if low == high {
        return Err(Refusal::PairSameBoat(second));
    }
    if high < low {
        return Err(Refusal::PairHigherFirst(first));
    }
    if is_not_rising(pairs, pair) {
        return Err(Refusal::PairNotRising(first));
    }
    Ok(())
}

// All pairs are good; or the way in which the lowest bad one is bad.
pub fn all_good(boats: usize, pairs: &[u8]) -> Result<(), Refusal>
    ensures { IsFirst result (each_way (listed pairs.now) (first_way_bad boats pairs.now)) }
{
    for k in 0..pairs.len() / 2 {
        good_way(boats, pairs, k)?;
    }
    Ok(())
}
