// The map as a picture in SVG: a cell for each word, with its tags where one points at it, and the legend below.
use crate::cells::{Cell, Mark, glyph, kinds, words_of};
use crate::legend::{CHARACTERS, tell_count, tell_end};
use crate::places::{ENTRY, ROW, cell_place, entry_place, line_place, rows};
use crate::shapes::{begin_cell, begin_text, end_cell, say_marks, say_style};
use crate::shown::say_tags;
use machine::{Processor, Ran};
use memory::{Memories, word_at};
use std::io;

// Where the first cell stands.
const LEFT: u32 = 48;

const TOP: u32 = 52;

// The least width, which the legend's lines need however few words there are.
const WIDTH: u32 = 720;

// The picture's measures.
#[derive(Clone, Copy)]
struct Frame {
    columns: u32,
    width: u32,
    // where the legend's first line stands, and its first owner
    legend: u32,
    owners: u32,
    // how many owners are in a line
    across: u32,
    height: u32,
}

// How many compartments own a word.
fn count_owners(n: u32, owners: &[u32]) -> u32 {
    let mut count: u32 = 0;
    for c in 0..64 {
        if words_of(c, n, owners) != 0 {
            count = count.wrapping_add(1);
        }
    }
    count
}

impl Frame {
    fn of(cpu: Processor, owners: &[u32]) -> Frame {
        let columns = cpu.n.min(ROW);
        let width = cell_place(64, columns).max(WIDTH);
        let legend = cell_place(TOP + 28, rows(cpu.n, ROW));
        let first = line_place(legend.wrapping_add(11), kinds(cpu.strict));
        let across = width / ENTRY;
        let last = line_place(first, rows(count_owners(cpu.n, owners), across));
        Frame {
            columns,
            width,
            legend,
            owners: first,
            across,
            height: last.wrapping_add(8),
        }
    }
}

fn begin(rt: &impl Print, f: Frame) -> io::Result<()> {
    let Frame { width, height, .. } = f;
    print!(rt; "<svg xmlns='http://www.w3.org/2000/svg' width='{width}' height='{height}' ")?;
    println!(rt; "viewBox='0 0 {width} {height}'>")?;
    say_style(rt)
}

// How the run ended, above the map.
fn draw_end(rt: &impl Print, ran: Ran) -> io::Result<()> {
    begin_text(rt, "<text class='h' x='", 16, 20)?;
    tell_end(rt, ran)?;
    rt.println("</text>")
}

// A number above each eighth column.
fn draw_ruler(rt: &impl Print, columns: u32) -> io::Result<()> {
    for i in 0..columns {
        if i % 8 == 0 {
            begin_text(rt, "<text class='n' x='", cell_place(57, i), 45)?;
            println!(rt; "{i}</text>")?;
        }
    }
    Ok(())
}

fn draw_cell(
    rt: &impl Print,
    x: u32,
    y: u32,
    address: u32,
    word: u32,
    cell: Cell,
) -> io::Result<()> {
    begin_cell(rt, cell.owner, x, y)?;
    say_tags(rt, address, word, cell)?;
    end_cell(rt, glyph(cell.owner))?;
    say_marks(rt, cell)?;
    rt.println("</g>")
}

// A cell for each word, and the row's address in front of its first.
fn draw_words(rt: &impl Print, cpu: Processor, lent: &Memories<'_>) -> io::Result<()> {
    for x in 0..cpu.n {
        let y = cell_place(TOP, x / ROW);
        let column = x % ROW;
        if column == 0 {
            begin_text(rt, "<text class='a' x='", 42, y.wrapping_add(13))?;
            println!(rt; "{x}</text>")?;
        }
        let cell = Cell::at(x, cpu, lent);
        draw_cell(
            rt,
            cell_place(LEFT, column),
            y,
            x,
            word_at(lent.words, x),
            cell,
        )?;
    }
    Ok(())
}

// The i-th owner of the legend, in its place.
fn draw_owner(rt: &impl Print, f: Frame, i: u32, c: u32, count: usize) -> io::Result<()> {
    if f.across == 0 {
        return Ok(());
    }
    let x = entry_place(16, i % f.across);
    let y = line_place(f.owners, i / f.across);
    begin_cell(rt, c, x, y)?;
    end_cell(rt, glyph(c))?;
    begin_text(rt, "</g><text x='", x.wrapping_add(26), y.wrapping_add(13))?;
    tell_count(rt, c, count)?;
    rt.println("</text>")
}

fn draw_owners(rt: &impl Print, f: Frame, n: u32, owners: &[u32]) -> io::Result<()> {
    let mut i: u32 = 0;
    for c in 0..64 {
        let count = words_of(c, n, owners);
        if count != 0 {
            draw_owner(rt, f, i, c, count)?;
            i = i.wrapping_add(1);
        }
    }
    Ok(())
}

// A mark in a cell without an owner's character, and what it means.
fn draw_meaning(rt: &impl Print, mark: Mark, y: u32) -> io::Result<()> {
    begin_cell(rt, 0, 16, y)?;
    end_cell(rt, ' ')?;
    rt.print(mark.shape())?;
    begin_text(rt, "</g><text x='", 42, y.wrapping_add(13))?;
    rt.print(mark.meaning())?;
    rt.println("</text>")
}

fn draw_legend(rt: &impl Print, f: Frame, cpu: Processor, owners: &[u32]) -> io::Result<()> {
    begin_text(rt, "<text x='", 16, f.legend)?;
    rt.print(CHARACTERS)?;
    rt.println("; owners 16 apart have one colour</text>")?;
    for (i, mark) in (0..kinds(cpu.strict)).zip(Mark::ALL) {
        draw_meaning(rt, mark, line_place(f.legend.wrapping_add(11), i))?;
    }
    draw_owners(rt, f, cpu.n, owners)?;
    rt.println("</svg>")
}

// Draws what a run came to.
pub(crate) fn draw(rt: &impl Print, ran: Ran, lent: &Memories<'_>) -> io::Result<()> {
    let cpu = ran.cpu;
    let f = Frame::of(cpu, lent.owners);
    begin(rt, f)?;
    draw_end(rt, ran)?;
    draw_ruler(rt, f.columns)?;
    draw_words(rt, cpu, lent)?;
    draw_legend(rt, f, cpu, lent.owners)
}
