// The totals: a line counted, and their text.
ghost use Rattle.std.specs.Prelude.{◌≡◌, ◌+◌, ◌<◌, ◌≤◌, length, if◌then◌else◌, slice_index, slice_set};
ghost use Rattle.common.specs.Instructions.{plus};
ghost use Rattle.numerals.specs.Writing.{put};
ghost use Rattle.text.specs.Puts.{put_of};
ghost use Rattle.printed.specs.Text.{field};
ghost use Rattle.sheets.specs.Totals.{is_stop, stops_text, stops, totals_text};
ghost use Rattle.sheet.specs.TotalLaws.{stop_text};
ghost use Rattle.sheet.specs.Views.{totals_of};

use crate::{Note, Totals};
use answers::Refusal;
use printer::lines::put_field;

// The answers of a run that are stops: those from the first to the last, the one of both modes, and the one of strict mode.
const FIRST: u32 = Refusal::NoPlace as u32;

const LAST: u32 = Refusal::NoNumber as u32;

const STRAY_BIT: u32 = Refusal::StrayBit as u32;

const LOAD_FORBIDDEN: u32 = Refusal::LoadForbidden as u32;

// One more run with a note's answer, unless the image was refused; an answer that has no place is not counted.
pub(crate) fn count(ended: &mut [u32], note: Note)
    ensures { ended.new ≡ (if note.refused then ended.old else slice_set ended.old note.answer (plus (slice_index ended.old note.answer) 1)) }
{
    let i = note.answer as usize;
    if !note.refused && i < ended.len() {
        ended[i] = ended[i].wrapping_add(1);
    }
}

// 2 to 13 and 16, and 17 in strict mode.
fn is_stop(strict: bool, a: u32) -> bool
    ensures { result ≡ is_stop strict a }
{
    match a {
        FIRST..=LAST | STRAY_BIT => true,
        LOAD_FORBIDDEN => strict,
        _ => false,
    }
}

// A name and a count.
fn put_count(out: &mut [u8], at: usize, name: &[u8], n: u32) -> usize
    ensures written { put_of result out.new ≡ put (field name.now n) at out.old }
    ensures bounded { length (field name.now n) ≤ length name.now + 10 }
{
    put_field(out, at, name, n)
}

// A stop and its count; nothing of a number that is none.
fn put_stop(out: &mut [u8], at: usize, strict: bool, a: u32, n: u32) -> usize
    requires { (at ≤ length out.old) × (a < 18) }
    ensures written { put_of result out.new ≡ put (stop_text strict a n) at out.old }
    ensures bounded { length (stop_text strict a n) ≤ 14 }
{
    if is_stop(strict, a) {
        let p = put_field(out, at, b" ", a);
        put_count(out, p, b" ", n)
    } else {
        at
    }
}

// Every stop and its count.
fn put_stops(out: &mut [u8], at: usize, strict: bool, ended: &[u32; 18]) -> usize
    requires { at ≤ length out.old }
    ensures written { put_of result out.new ≡ put (stops_text (stops strict) ended.now) at out.old }
    ensures bounded { length (stops_text (stops strict) ended.now) ≤ 252 }
{
    let mut p = at;
    for (a, n) in ended.iter().enumerate() {
        p = put_stop(out, p, strict, a as u32, *n);
    }
    p
}

// The totals' line, at the front.
pub(crate) fn put_totals(out: &mut [u8], strict: bool, t: Totals) -> usize
    ensures written { put_of result out.new ≡ put (totals_text strict (totals_of t)) 0 out.old }
    ensures bounded { length (totals_text strict (totals_of t)) ≤ 350 }
{
    let at = put_count(out, 0, b"images ", t.images);
    let at = put_count(out, at, b" refused ", t.refused);
    let at = put_count(out, at, b" halted ", t.ended[1]);
    let at = text::put_text(out, at, b" stopped");
    let at = put_stops(out, at, strict, &t.ended);
    let at = put_count(out, at, b" budget ", t.ended[0]);
    let at = put_count(out, at, b" steps ", t.steps);
    text::put_text(out, at, b"\n")
}
