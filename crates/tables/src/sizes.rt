// Number 3: the sizes.
ghost use Rattle.std.specs.Prelude.{◌≡◌, ◌≤◌, length};
ghost use Rattle.tables.specs.Tests.{each};
ghost use Rattle.tables.specs.Examination.{is_bad_size};
ghost use Rattle.tables.specs.Ways.{IsFirst};

use problem::{Problem, Refusal};

// No size is 0 or above 64; or the lowest boat whose size is.
pub fn all_good(sizes: &[u8]) -> Result<(), Refusal>
    requires { length sizes.now ≤ 64 }
    ensures { IsFirst result (each 3 (length sizes.now) (is_bad_size sizes.now)) }
{
    for i in 0..sizes.len() {
        if Problem::bad_size(looks::size_of(sizes, i)) {
            return Err(Refusal::Size(i));
        }
    }
    Ok(())
}
