// Where each kind of word begins, as docs/WORDS.md has it. (specs/Places.antt has the same numbers for the contracts.)
ghost use Rattle.std.specs.Prelude.{◌≡◌, ◌+◌, ◌<◌};
ghost use Rattle.words.specs.Places.{tri, index};

#[derive(Drop)]
pub struct Words {}

impl Words {
    pub const SETS: usize = 64;

    pub const NEXT_SET: usize = 65;

    pub const LOWS: usize = 64;

    pub const STARTS: usize = 192;

    pub const ENDS: usize = 193;

    pub const ROW_STARTS: usize = 320;

    pub const LASTS: usize = 448;

    pub const INDEX: usize = 512;

    pub const LINKS: usize = 512;

    pub const PREVS: usize = 512;

    pub const ALLS: usize = 4032;

    pub const MARKS: usize = 4096;

    pub const LIVES: usize = 4096;

    // From the place of a live word to that of the boats to blame for it.
    pub const BLAMES: usize = 2080;
}

// The index row of a boat: its words for the boats below it.
pub fn row_at(boat: usize) -> usize
    requires { boat < 64 }
    ensures { result ≡ index + tri boat }
{
    Words::INDEX + (boat * boat - boat) / 2
}
