// Many bytes or words, as one field of a reply's line.
use std::fmt;

// In hexadecimal digits, so many at least, with a mark between; a lone '-' stands for none.
#[derive(Clone, Copy)]
pub struct Hex<'a, T> {
    items: &'a [T],
    digits: usize,
    mark: &'static str,
}

impl<'a> Hex<'a, u8> {
    pub fn bytes(items: &'a [u8]) -> Self {
        Hex {
            items,
            digits: 2,
            mark: "",
        }
    }
}

impl<'a> Hex<'a, u64> {
    pub fn words(items: &'a [u64]) -> Self {
        Hex {
            items,
            digits: 1,
            mark: ",",
        }
    }
}

impl<T: Copy + Into<u64>> fmt::Display for Hex<'_, T> {
    fn fmt<W: fmt::Write>(&self, f: &mut fmt::Formatter<W>) -> fmt::Result {
        let Hex {
            items,
            digits,
            mark,
        } = *self;
        let Some((first, others)) = items.split_first() else {
            return f.write_str("-");
        };
        let first: u64 = (*first).into();
        write!(f, "{first:0digits$x}")?;
        for other in others {
            let other: u64 = (*other).into();
            write!(f, "{mark}{other:0digits$x}")?;
        }
        Ok(())
    }
}
