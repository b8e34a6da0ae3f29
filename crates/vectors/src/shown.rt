// Show the rows of a pair.
use crate::group::Tables;
use crate::hex::Hex;
use reading::Fields;
use std::io;
use std::io::Write;

pub fn shown(mut fields: Fields, tables: &Tables, out: &mut impl Write) -> io::Result<()> {
    let [lower, higher] = fields.numbers::<2>();
    let (lower, higher) = (lower as usize, higher as usize);
    let Tables { sizes, pairs, rows } = tables;
    let part = questions::place_of_rows(sizes, pairs, rows, lower, higher);
    let words = questions::rows_of_pair(sizes, pairs, rows, lower, higher);
    writeln!(out, "s {} {} {}", part.start, part.end, Hex::words(words))
}
