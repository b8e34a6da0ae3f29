// The lines of a text.
ghost use Rattle.std.specs.Prelude.{◌≡◌, [], ◌∷◌, length, MatchOption};
ghost use Rattle.std.specs.Iterator.{at_most};

use crate::Fields;
use std::marker::Model;

// A line's first byte says what it is; its fields come after it.
#[derive(Drop)]
pub struct Line<'a> {
    pub kind: u8,
    pub fields: Fields<'a>,
}

#[derive(Drop)]
pub struct Lines<'a> {
    left: &'a [u8],
}

impl<'a> Model for Lines<'a> {
    ghost use Rattle.std.specs.Prelude.{List, ℕ};

    ghost Value = { List ℕ };

    ghost view = { λ lines. lines.left.now };
}

impl<'a> Lines<'a> {
    pub fn new(text: &'a [u8]) -> Self
        ensures { result ≡ text.now }
    {
        Lines { left: text }
    }
}

impl<'a> Iterator for Lines<'a> {
    type Item = Line<'a>;

    ghost next_gives = { λ left line after. MatchOption line (left ≡ []) (λ line. left ≡ line.kind ∷ line.fields) };

    ghost remaining = { λ left. at_most (length left) };

    fn next(&mut self) -> Option<Line<'a>> {
        let (kind, fields) = self.left.split_first()?;
        let end = self.left.iter().position(|byte| *byte == b'\n');
        self.left = match end {
            Some(end) => &self.left[end + 1..],
            None => &[],
        };
        Some(Line {
            kind: *kind,
            fields: Fields::new(fields),
        })
    }
}
