// What a line asks about the tables before it, by its first byte.
use crate::group::Tables;
use crate::{file_lines, given, run, shown};
use reading::Line;
use std::alloc::Global;
use std::io::Write;
use std::{fmt, io};

#[derive(Clone, Copy)]
enum Question {
    Run,
    Given,
    Shown,
    Write,
    Read,
    Ask,
}

#[derive(Drop)]
struct NoQuestion;

impl TryFrom<u8> for Question {
    type Error = NoQuestion;

    fn try_from(kind: u8) -> Result<Self, NoQuestion> {
        match kind {
            b'r' => Ok(Question::Run),
            b'p' => Ok(Question::Given),
            b's' => Ok(Question::Shown),
            b'w' => Ok(Question::Write),
            b'f' => Ok(Question::Read),
            b'd' => Ok(Question::Ask),
            _ => Err(NoQuestion),
        }
    }
}

impl fmt::Display for NoQuestion {
    fn fmt<W: fmt::Write>(&self, f: &mut fmt::Formatter<W>) -> fmt::Result {
        write!(f, "no question")
    }
}

pub fn answer(line: Line, tables: &Tables, alloc: Global, out: &mut impl Write) -> io::Result<()> {
    let fields = line.fields;
    match Question::try_from(line.kind) {
        Ok(Question::Run) => run::run(fields, tables, alloc, out),
        Ok(Question::Given) => given::given(fields, tables, alloc, out),
        Ok(Question::Shown) => shown::shown(fields, tables, out),
        Ok(Question::Write) => file_lines::write(fields, tables, alloc, out),
        Ok(Question::Read) => file_lines::read(fields, alloc, out),
        Ok(Question::Ask) => file_lines::ask(fields, alloc, out),
        Err(no_question) => writeln!(out, "{no_question}"),
    }
}
