// The first pass: every label's first line goes into the table.
ghost use Rattle.std.specs.Prelude.{◌≡◌};
ghost use Rattle.syntax.specs.Seen.{seen_shape};
ghost use Rattle.label_table.specs.Table.{empty};
ghost use Rattle.assembler.specs.Survey.{noted, noted_at, Surveyed};

use answers::Refusal;
use label_table::{Definition, Table};
use syntax::Shape;

// Puts the label of the line at a place into the table, with where the line is, if the line has a label that is not there. False where
// the table is full.
#[tactic(auto, unfolding(crate::specs::Survey::noted_at))]
fn note(
    text: &[u8],
    table: &mut Table,
    at: usize,
    shape: Result<Shape, Refusal>,
    here: Definition,
) -> bool
    ensures { noted result table.new ≡ noted_at text.now at (seen_shape shape) here.line here.words table.old }
{
    let Ok(Shape::Label) = shape else {
        return true;
    };
    let place = tokens::token(text, at).place;
    if table.find(text, place).is_some() {
        return true;
    }
    if table.is_full() {
        return false;
    }
    table.insert(text, place, here);
    true
}

// Fills an empty table. Answers whether it holds every label: a table that is full holds the first of them.
pub(crate) fn survey(text: &[u8], table: &mut Table) -> bool
    requires { table.old ≡ empty }
    ensures { Surveyed text.now table.new result }
{
    let mut at = 0;
    let mut here = Definition { line: 0, words: 0 };
    // kept: the new form is no plainer: each line begins behind the end of the one before, which a call tells
    while at <= text.len() {
        let shape = syntax::shape(text, at);
        if !note(text, table, at, shape, here) {
            return false;
        }
        here.line += 1;
        here.words += labels::words_in_line(shape);
        at = tokens::line_end(text, at) + 1;
    }
    true
}
