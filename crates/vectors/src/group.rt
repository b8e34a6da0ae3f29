// The tables that a group of questions is about, or memory that is lent for tables.
use crate::hex::Hex;
use crate::told::Told;
use crate::{lent, lists};
use reading::Fields;
use std::alloc::{AllocError, Global};
use std::io::Write;
use std::{fmt, io};

// Room for a part of the memory that the stored problems lend.
pub const PART: usize = 512;

#[derive(Drop)]
pub struct Tables {
    pub sizes: Vec<u8>,
    pub pairs: Vec<u8>,
    pub rows: Vec<u64>,
}

impl Tables {
    // None yet.
    pub fn none(alloc: Global) -> Self {
        Tables {
            sizes: Vec::new(alloc),
            pairs: Vec::new(alloc),
            rows: Vec::new(alloc),
        }
    }

    // In the place of those before, so that one group's tables stand there at a time.
    pub fn read(self, mut fields: Fields) -> Result<Self, AllocError> {
        let Tables { sizes, pairs, rows } = self;
        Ok(Tables {
            sizes: lists::bytes(&mut fields, sizes)?,
            pairs: lists::bytes(&mut fields, pairs)?,
            rows: lists::words(&mut fields, rows)?,
        })
    }

    // None where more is to be lent than there is room for.
    pub fn lent(mut fields: Fields, alloc: Global) -> Result<Option<Self>, AllocError> {
        let [boats, bytes, words] = fields.numbers::<3>();
        let (boats, bytes, words) = (boats as usize, bytes as usize, words as usize);
        if PART < boats.max(bytes).max(words) {
            return Ok(None);
        }
        Ok(Some(Tables {
            sizes: lent::memory(alloc, boats)?,
            pairs: lent::memory(alloc, bytes)?,
            rows: lent::memory(alloc, words)?,
        }))
    }

    pub fn examine(&self, out: &mut impl Write) -> io::Result<()> {
        let found = tables::examine(&self.sizes, &self.pairs, &self.rows);
        writeln!(out, "t {}", Told::examined(found, self))
    }
}

impl fmt::Display for Tables {
    fn fmt<W: fmt::Write>(&self, f: &mut fmt::Formatter<W>) -> fmt::Result {
        let sizes = Hex::bytes(&self.sizes);
        let pairs = Hex::bytes(&self.pairs);
        let rows = Hex::words(&self.rows);
        write!(f, "{sizes} {pairs} {rows}")
    }
}
