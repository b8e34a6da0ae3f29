// Write the tables to a file, read a file, and the desk's question.
use crate::group::{PART, Tables};
use crate::hex::Hex;
use crate::told::Told;
use crate::{lent, lists};
use reading::Fields;
use std::alloc::Global;
use std::io;
use std::io::Write;

// A file that is to be lent more than there is room for is not written.
pub fn write(
    mut fields: Fields,
    tables: &Tables,
    alloc: Global,
    out: &mut impl Write,
) -> io::Result<()> {
    let [bytes] = fields.numbers::<1>();
    let bytes = bytes as usize;
    if PART < bytes {
        return Ok(());
    }
    let mut file: Vec<u8> = lent::memory(alloc, bytes)?;
    let Tables { sizes, pairs, rows } = tables;
    let (told, length) = Told::written(writer::write(sizes, pairs, rows, &mut file));
    writeln!(out, "w {told} {length} {}", Hex::bytes(&file))
}

// What is said of the tables, and how much is written to each part.
pub fn read(mut fields: Fields, alloc: Global, out: &mut impl Write) -> io::Result<()> {
    let file = lists::bytes(&mut fields, Vec::new(alloc))?;
    let Some(mut lent) = Tables::lent(fields, alloc)? else {
        return Ok(());
    };
    let reply = reader::read(&file, &mut lent.sizes, &mut lent.pairs, &mut lent.rows);
    let told = Told::of(reply.found);
    writeln!(
        out,
        "f {told} {} {} {} {lent}",
        reply.boats, reply.pair_bytes, reply.row_words
    )
}

// The one number that the desk is given.
pub fn ask(mut fields: Fields, alloc: Global, out: &mut impl Write) -> io::Result<()> {
    let file = lists::bytes(&mut fields, Vec::new(alloc))?;
    let plan = lists::bytes(&mut fields, Vec::new(alloc))?;
    let Some(mut lent) = Tables::lent(fields, alloc)? else {
        return Ok(());
    };
    let judged = reader::is_lawful_by(
        &file,
        &plan,
        &mut lent.sizes,
        &mut lent.pairs,
        &mut lent.rows,
    );
    writeln!(out, "d {} {lent}", Told::of(judged).number)
}
