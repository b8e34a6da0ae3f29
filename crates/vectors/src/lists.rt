// Fields that hold many: bytes of two hex digits, or words with commas between. A lone '-' holds none.
ghost use Rattle.std.specs.Prelude.{◌≤◌, IfOk, length};

use reading::{Base, Fields};
use std::alloc::AllocError;

// Room for sizes, pairs, a plan or a file; some of the stored ones are past the limits.
const BYTES: usize = 8192;

const ROWS: usize = 131072;

// Each list is read into memory of its caller's, in place of what it held.
pub fn bytes(fields: &mut Fields, memory: Vec<u8>) -> Result<Vec<u8>, AllocError>
    ensures { IfOk result (λ bytes. length bytes.items ≤ 8192) }
{
    at_most(BYTES, fields, memory, |fields| fields.byte())
}

pub fn words(fields: &mut Fields, memory: Vec<u64>) -> Result<Vec<u64>, AllocError>
    ensures { IfOk result (λ words. length words.items ≤ 131072) }
{
    at_most(ROWS, fields, memory, |fields| {
        fields.number(Base::Sixteen, b',')
    })
}

// An item has two bytes or more, but for a last word, so all that can come have room at once: a list that grows stands in two places while it moves.
fn at_most<T: Drop, Next: Fn(&mut Fields) -> Option<T>>(
    room: usize,
    fields: &mut Fields,
    memory: Vec<T>,
    next: Next,
) -> Result<Vec<T>, AllocError>
    requires { (f : _) (fields : _) → Next.pre f fields }
    ensures { IfOk result (λ read. length read.items ≤ room) }
{
    fields.past(b' ');
    let mut read = memory;
    read.clear();
    read.reserve_exact(room.min(fields.width(room.saturating_mul(2)) / 2 + 1))?;
    for _place in 0..room {
        let Some(item) = next(fields) else {
            break;
        };
        read.push(item)?;
    }
    fields.past(b'-');
    Ok(read)
}
