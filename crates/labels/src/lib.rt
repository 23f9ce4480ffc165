// Where a label is defined first.
#![tactic(auto)]

ghost use Rattle.std.specs.Prelude.{◌≡◌};
ghost use Rattle.grammar.specs.Laws.Runs.{name_at, line_at};
ghost use Rattle.grammar.specs.Reading.Shapes.{shape_of};
ghost use Rattle.sources.specs.Texts.{reading, readings};
ghost use Rattle.sources.specs.Labels.{defines, first};
ghost use Rattle.label_table.specs.Table.{found};
ghost use Rattle.syntax.specs.Seen.{seen_shape};
ghost use Rattle.labels.specs.Locating.{held_by, located};

use answers::Refusal;
use label_table::{Definition, Table};
use syntax::Shape;

/// A text with a table of its labels, which is complete if it holds every label of the text.
#[derive(Clone, Copy)]
pub struct Labels<'a> {
    pub text: &'a [u8],
    pub table: &'a Table,
    pub complete: bool,
}

impl Labels<'_> {
    /// The first line that defines the label whose name stands at a place: from the table, or else, where the table does not hold
    /// every label, from the text.
    pub fn locate(&self, place: usize) -> Option<Definition>
        ensures { result ≡ found (located self.now.text.now self.now.table.now self.now.complete (name_at self.now.text.now place)) }
    {
        match self.table.find(self.text, place) {
            None if !self.complete => scan(self.text, place),
            found => found,
        }
    }
}

// Whether the line at a place, which has this shape, defines the label whose name stands at another place.
fn defines(text: &[u8], at: usize, shape: Result<Shape, Refusal>, place: usize) -> bool
    requires { seen_shape shape ≡ shape_of (reading (line_at text.now at)) }
    ensures { result ≡ defines (name_at text.now place) (reading (line_at text.now at)) }
{
    matches!(shape, Ok(Shape::Label))
        && tokens::same_name(text, place, tokens::token(text, at).place)
}

// How many words a line holds, by the number of its shape or of its refusal.
#[tactic(auto, unfolding(crate::specs::Locating::held_by))]
pub fn held(shape: u32) -> u64
    ensures { result ≡ held_by shape }
{
    u64::from(shape == Shape::Word as u32)
}

// How many words a line of this shape holds.
#[tactic(auto, unfolding(crate::specs::Locating::held_by))]
pub fn words_in_line(shape: Result<Shape, Refusal>) -> u64
    ensures { result ≡ held_by (seen_shape shape) }
{
    u64::from(matches!(shape, Ok(Shape::Word)))
}

// The first line of the text that defines the label whose name stands at a place.
pub fn scan(text: &[u8], place: usize) -> Option<Definition>
    ensures { result ≡ found (first (name_at text.now place) (readings text.now)) }
{
    let mut at = 0;
    let mut definition = Definition { line: 0, words: 0 };
    // kept: the new form is no plainer: each line begins behind the end of the one before, which a call tells
    while at <= text.len() {
        let shape = syntax::shape(text, at);
        if defines(text, at, shape, place) {
            return Some(definition);
        }
        definition.line += 1;
        definition.words += words_in_line(shape);
        at = tokens::line_end(text, at) + 1;
    }
    None
}
