// The fields of a line, read one after another.
ghost use Rattle.std.specs.Prelude.{◌≡◌, ◌+◌, ◌<◌, ◌≤◌, length, IfNone, OnSome};
ghost use Rattle.reading.specs.Texts.{past_mark};

use crate::Base;
use std::marker::Model;

// What is left of the text: no field goes past the end of its line.
#[derive(Drop)]
pub struct Fields<'a> {
    left: &'a [u8],
}

impl<'a> Model for Fields<'a> {
    ghost use Rattle.std.specs.Prelude.{List, ℕ};

    ghost Value = { List ℕ };

    ghost view = { λ fields. fields.left.now };
}

impl<'a> Fields<'a> {
    pub fn new(text: &'a [u8]) -> Self
        ensures { result ≡ text.now }
    {
        Fields { left: text }
    }

    // Past a mark, where it stands next.
    pub fn past(&mut self, mark: u8)
        ensures { self.new ≡ past_mark mark self.old }
    {
        if let Some((first, left)) = self.left.split_first() {
            if *first == mark {
                self.left = left;
            }
        }
    }

    fn digit(&mut self, base: Base) -> Option<u8>
        ensures none { IfNone result (self.new ≡ self.old) }
        ensures some { OnSome result (length self.new + 1 ≡ length self.old) }
    {
        let (first, left) = self.left.split_first()?;
        let digit = base.digit(*first)?;
        self.left = left;
        Some(digit)
    }

    // Two hex digits; one alone is passed over.
    pub fn byte(&mut self) -> Option<u8>
        ensures { OnSome result (length self.new + 2 ≡ length self.old) }
    {
        let high = self.digit(Base::Sixteen)?;
        let low = self.digit(Base::Sixteen)?;
        Some(high << 4 | low)
    }

    // A number, and past the mark behind it.
    pub fn number(&mut self, base: Base, mark: u8) -> Option<u64>
        ensures none { IfNone result (self.new ≡ self.old) }
        ensures some { OnSome result (length self.new < length self.old) }
    {
        let mut value = None;
        while let Some(digit) = self.digit(base) {
            value = Some(base.with_digit(value.unwrap_or(0), digit));
        }
        if value.is_some() {
            self.past(mark);
        }
        value
    }

    // How many bytes of a list stand next, digits and commas, of so many at most.
    pub fn width(&self, most: usize) -> usize
        ensures { result ≤ length self.now }
    {
        let next = &self.left[..self.left.len().min(most)];
        let end = next.iter().position(|byte| *byte != b','
            && Base::Sixteen.digit(*byte).is_none());
        end.unwrap_or(next.len())
    }

    // So many decimal numbers; each that is missing is 0.
    pub fn numbers<const N: usize>(&mut self) -> [u64; N]
        ensures { length self.new ≤ length self.old }
    {
        self.past(b' ');
        let mut numbers = [0; N];
        for number in numbers.iter_mut() {
            *number = self.number(Base::Ten, b' ').unwrap_or(0);
        }
        numbers
    }
}
