// Answers the stored problems of the second program, a line for a line. The file stdout has the second program's replies, so the gate fails where the two programs differ. Both forms of lines stand in outside/second/src/stored/mod.rs. A line that is not of that form is misread and not refused: its reply differs then.
#![tactic(auto)]

mod file_lines;
mod given;
mod group;
mod hex;
mod lent;
mod lists;
mod question;
mod run;
mod shown;
mod told;

use group::Tables;
use reading::Lines;
use std::alloc::Global;
use std::io;
use std::io::{BufWriter, Read, Write};

// More bytes than the stored problems have; what stands behind so many is not read.
const ROOM: u64 = 2097152;

// A read or a write that fails, or memory that is not to be had, ends the program with an error.
fn main(rt: HostRuntime) -> io::Result<()> {
    let mut text = Vec::new(rt.alloc());
    rt.reader().take(ROOM).read_to_end(&mut text)?;
    let mut out = BufWriter::new(rt.alloc(), io::writer(&rt))?;
    answer_all(&text, rt.alloc(), &mut out)?;
    out.flush()
}

// The first line has tables, whatever it begins with.
fn answer_all(text: &[u8], alloc: Global, out: &mut impl Write) -> io::Result<()> {
    let mut tables: Option<Tables> = None;
    for line in Lines::new(text) {
        match &tables {
            Some(asked) if line.kind != b't' => question::answer(line, asked, alloc, out)?,
            _ => {
                let before = match tables.take() {
                    Some(before) => before,
                    None => Tables::none(alloc),
                };
                let read = before.read(line.fields)?;
                read.examine(out)?;
                tables = Some(read);
            }
        }
    }
    Ok(())
}
