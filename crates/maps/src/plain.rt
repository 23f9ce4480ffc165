// The map as text: 64 words a line, and below a line what is marked in it.
use crate::cells::{Cell, Mark, glyph, kinds};
use crate::legend::{tell_end, tell_marks, tell_owners};
use crate::places::{ROW, rows};
use machine::{Processor, Ran};
use memory::{Memories, word_at};
use std::fmt::Write;
use std::{fmt, io};

// The numbers above the map's columns.
const RULER: &str = "      0       8       16      24      32      40      48      56";

impl Mark {
    // What stands before a line of the mark.
    fn name(self) -> &'static str {
        match self {
            Mark::Pc => "   pc ",
            Mark::Jump => " jump ",
            Mark::Store => "store ",
            Mark::Read => " read ",
        }
    }
}

// The words of the map's row that begins at `first`.
#[derive(Clone, Copy)]
struct Row<'a> {
    first: u32,
    past: u32,
    cpu: Processor,
    lent: Memories<'a>,
}

// A row's owners.
#[derive(Clone, Copy)]
struct Owners<'a>(Row<'a>);

// A row's marks of one kind, up to the last.
#[derive(Clone, Copy)]
struct Marks<'a>(Row<'a>, Mark);

impl Row<'_> {
    fn has(&self, mark: Mark, x: u32) -> bool {
        Cell::at(x, self.cpu, &self.lent).has(mark)
    }
}

impl fmt::Display for Owners<'_> {
    fn fmt<W: fmt::Write>(&self, f: &mut fmt::Formatter<W>) -> fmt::Result {
        let row = self.0;
        for x in row.first..row.past {
            f.write_char(glyph(word_at(row.lent.owners, x)))?;
        }
        Ok(())
    }
}

impl fmt::Display for Marks<'_> {
    fn fmt<W: fmt::Write>(&self, f: &mut fmt::Formatter<W>) -> fmt::Result {
        let row = self.0;
        let mut next = row.first;
        for x in row.first..row.past {
            if row.has(self.1, x) {
                for _ in next..x {
                    f.write_char(' ')?;
                }
                f.write_char('^')?;
                next = x.wrapping_add(1);
            }
        }
        Ok(())
    }
}

// The owners of a row, and a line for each mark that it has.
fn draw_row(rt: &impl Print, row: Row<'_>) -> io::Result<()> {
    println!(rt; "{:>5} {}", row.first, Owners(row))?;
    for mark in Mark::ALL {
        if (row.first..row.past).any(|x| row.has(mark, x)) {
            println!(rt; "{}{}", mark.name(), Marks(row, mark))?;
        }
    }
    Ok(())
}

// Draws what a run came to.
pub(crate) fn draw(rt: &impl Print, ran: Ran, lent: &Memories<'_>) -> io::Result<()> {
    let cpu = ran.cpu;
    tell_end(rt, ran)?;
    println!(rt; "")?;
    rt.println(RULER)?;
    for i in 0..rows(cpu.n, ROW) {
        let first = i.wrapping_mul(ROW);
        let past = first.wrapping_add(ROW).min(cpu.n);
        draw_row(
            rt,
            Row {
                first,
                past,
                cpu,
                lent: *lent,
            },
        )?;
    }
    tell_owners(rt, cpu.n, lent.owners)?;
    tell_marks(rt, kinds(cpu.strict))
}
