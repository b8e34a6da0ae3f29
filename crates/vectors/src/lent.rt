// Memory that is lent: what it holds before, and how far it has changed after.
ghost use Rattle.std.specs.Prelude.{◌≤◌, length};

use std::alloc::{AllocError, Global};

// What lent memory holds at a place before.
pub trait Dirt: Copy {
    fn at(place: usize) -> Self;
}

// Another number in each of 256 bytes.
impl Dirt for u8 {
    fn at(place: usize) -> u8 {
        (255 - place % 256) as u8
    }
}

// Another number in each word, so that a word moved shows too; none is 0.
impl Dirt for u64 {
    fn at(place: usize) -> u64 {
        u64::MAX - place as u64
    }
}

// Filled where it stands: an item pushed has to wait for the count of those before it.
pub fn memory<T: Dirt>(alloc: Global, count: usize) -> Result<Vec<T>, AllocError> {
    let mut memory = vec![in alloc; T::at(0); count]?;
    for (place, item) in memory.iter_mut().enumerate() {
        *item = T::at(place);
    }
    Ok(memory)
}

// The part up to the last item that is not what it was before.
pub fn changed<T: Copy + PartialEq, Before: Fn(usize) -> T>(memory: &[T], before: Before) -> &[T]
    requires { (f : _) (place : _) → Before.pre f place }
{
    let last = memory
        .iter()
        .enumerate()
        .rposition(|(place, item)| *item != before(place));
    match last {
        Some(last) => &memory[..last + 1],
        None => &[],
    }
}

// How many are not 0. Added up, and not filtered and counted: so the compiler takes several words at a time.
pub fn not_zero(words: &[u64]) -> usize
    ensures { result ≤ length words.now }
{
    let mut count = 0;
    for word in words {
        count += usize::from(*word != 0);
    }
    count
}
