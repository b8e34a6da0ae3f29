// The two questions about a given plan.
use crate::group::Tables;
use crate::lists;
use crate::told::Told;
use reading::Fields;
use std::alloc::Global;
use std::io;
use std::io::Write;

pub fn given(
    mut fields: Fields,
    tables: &Tables,
    alloc: Global,
    out: &mut impl Write,
) -> io::Result<()> {
    let plan = lists::bytes(&mut fields, Vec::new(alloc))?;
    let Tables { sizes, pairs, rows } = tables;
    let lawful = Told::of(questions::is_lawful(sizes, pairs, rows, &plan));
    let broken = Told::of(questions::first_broken(sizes, pairs, rows, &plan));
    writeln!(out, "p {lawful} {broken}")
}
