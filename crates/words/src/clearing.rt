// The words that a run uses, cleared.
ghost use Rattle.std.specs.Prelude.{◌≡◌, ◌≤◌, length};
ghost use Rattle.words.specs.Places.{used};
ghost use Rattle.words.specs.Layout.{zeroed};

use problem::Problem;

// The first 8,192 words become 0.
pub fn clear(work: &mut [u64])
    requires { used ≤ length work.old }
    ensures { work.new ≡ zeroed used work.old }
{
    work[..Problem::WORK].fill(0);
}
