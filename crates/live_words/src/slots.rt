// The live slots of a boat, one after the other.
ghost use Rattle.live_words.specs.Slots.{NextLive};

// The next live slot from one on. The dead slots of a word are counted at once.
pub fn next_live(live: u64, from: u64) -> u64
    ensures { NextLive live from result }
{
    if 64 <= from {
        return from;
    }
    from + (u64::trailing_zeros(live >> from) as u64)
}
