// The lines of the text, each put behind the one before.
ghost use Rattle.std.specs.Prelude.{◌≡◌, ◌+◌, ◌*◌, ◌≤◌, length};
ghost use Rattle.numerals.specs.Writing.{put};
ghost use Rattle.text.specs.Puts.{put_of};
ghost use Rattle.rows.specs.Views.{table};
ghost use Rattle.printed.specs.Text.{field, refused_line, first_fields, first_line, row_line, row_lines};
ghost use Rattle.printer.specs.Views.{line, row, lines_of};

use machine::Ran;
use rows::{Row, row_at};

// A name and a number.
pub fn put_field(out: &mut [u8], at: usize, name: &[u8], value: u32) -> usize
    ensures { put_of result out.new ≡ put (field name.now value) at out.old }
{
    let p = text::put_text(out, at, name);
    text::put_decimal(out, p, value)
}

// `refused R`, at the front.
pub fn put_refused(out: &mut [u8], answer: u32) -> usize
    ensures written { put_of result out.new ≡ put (refused_line answer) 0 out.old }
    ensures bounded { length (refused_line answer) ≤ 19 }
{
    let p = put_field(out, 0, b"refused ", answer);
    text::put_text(out, p, b"\n")
}

// The fields of a run's first line, at the front.
pub fn put_fields(out: &mut [u8], ran: Ran, widest: u32) -> usize
    ensures written { put_of result out.new ≡ put (first_fields (line ran.answer ran.count ran.cpu.pc ran.cpu.prev ran.cpu.jumped ran.cpu.next widest)) 0 out.old }
    ensures bounded { length (first_fields (line ran.answer ran.count ran.cpu.pc ran.cpu.prev ran.cpu.jumped ran.cpu.next widest)) ≤ 107 }
{
    let cpu = ran.cpu;
    let flag = u32::from(cpu.jumped);
    let at = put_field(out, 0, b"answer ", ran.answer);
    let at = put_field(out, at, b" steps ", ran.count);
    let at = put_field(out, at, b" pc ", cpu.pc);
    let at = put_field(out, at, b" prev ", cpu.prev);
    let at = put_field(out, at, b" jumped ", flag);
    let at = put_field(out, at, b" next ", cpu.next);
    put_field(out, at, b" widest ", widest)
}

// The first line, at the front.
pub(crate) fn put_first(out: &mut [u8], ran: Ran, widest: u32) -> usize
    ensures written { put_of result out.new ≡ put (first_line (line ran.answer ran.count ran.cpu.pc ran.cpu.prev ran.cpu.jumped ran.cpu.next widest)) 0 out.old }
    ensures bounded { length (first_line (line ran.answer ran.count ran.cpu.pc ran.cpu.prev ran.cpu.jumped ran.cpu.next widest)) ≤ 108 }
{
    let p = put_fields(out, ran, widest);
    text::put_text(out, p, b"\n")
}

// A compartment's line: number, addresses owned, addresses in J, addresses in S.
fn put_row(out: &mut [u8], at: usize, number: u32, owned: u32, jumps: u32, stores: u32) -> usize
    ensures written { put_of result out.new ≡ put (row_line (row number owned jumps stores)) at out.old }
    ensures bounded { length (row_line (row number owned jumps stores)) ≤ 44 }
{
    let at = put_field(out, at, b"", number);
    let at = put_field(out, at, b" ", owned);
    let at = put_field(out, at, b" ", jumps);
    let end = put_field(out, at, b" ", stores);
    text::put_text(out, end, b"\n")
}

// A line for each compartment below next, from its row.
pub(crate) fn put_rows(out: &mut [u8], at: usize, next: u32, rows: &[Row]) -> usize
    requires { at ≤ length out.old }
    ensures written { put_of result out.new ≡ put (row_lines (lines_of (table rows.now) 0 next)) at out.old }
    ensures bounded { length (row_lines (lines_of (table rows.now) 0 next)) ≤ 44 * next }
{
    let mut p = at;
    for c in 0..next {
        let row = row_at(rows, c);
        p = put_row(out, p, c, row.owned, row.jump, row.store);
    }
    p
}
