// The second pass: each line's word, up to the first line at fault.
ghost use Rattle.std.specs.Prelude.{◌≡◌, ◌≤◌, ◌<◌, length, IfOk, IfSome};
ghost use Rattle.sources.specs.Meaning.{meaning};
ghost use Rattle.labels.specs.Locating.{located};
ghost use Rattle.assembler.specs.Emit.{outcome_of, passed, label_at, judged_at, emitted_of};
ghost use Rattle.assembler.specs.Survey.{Surveyed};

use crate::word::word;
use answers::{Fault, Refusal};
use expressions::Line;
use labels::Labels;
use syntax::Shape;

// How many words there may be.
pub(crate) const MOST: usize = 2048;

// A label line: a line before must not define the label too.
fn label(labels: &Labels, at: usize, line: u64) -> Result<(), Refusal>
    ensures { passed result ≡ label_at labels.now.text.now (located labels.now.text.now labels.now.table.now labels.now.complete) at line }
{
    let t = tokens::token(labels.text, at);
    match labels.locate(t.place) {
        Some(first) if first.line < line => Err(Refusal::LabelTwice),
        _ => Ok(()),
    }
}

// What the line at a place comes to, which has these many lines and words before it: nothing, or its word, or a refusal.
fn judge(labels: &Labels, at: usize, line: u64, count: usize) -> Result<Option<u32>, Refusal>
    ensures judged { outcome_of result ≡ judged_at labels.now.text.now (located labels.now.text.now labels.now.table.now labels.now.complete) at line count }
    ensures room { IfOk result (λ word. IfSome word (λ w. count < 2048)) }
{
    match syntax::shape(labels.text, at)? {
        Shape::Nothing => Ok(None),
        Shape::Label => {
            label(labels, at, line)?;
            Ok(None)
        }
        Shape::Word => {
            let here = Line {
                labels: *labels,
                dot: count as u64,
            };
            let word = word(&here, at)?;
            if count < MOST {
                return Ok(Some(word));
            }
            Err(Refusal::ManyWords)
        }
    }
}

// The words of a text; answers how many there are.
pub(crate) fn emit(labels: &Labels, words: &mut [u32; MOST]) -> Result<usize, Fault>
    requires { Surveyed labels.now.text.now labels.now.table.now labels.now.complete × (length words.old ≡ 2048) }
    ensures means { emitted_of result words.new ≡ meaning labels.now.text.now }
    ensures within { IfOk result (λ n. n ≤ length words.new) }
{
    let mut at = 0;
    let mut line: u64 = 0;
    let mut count = 0;
    // kept: the new form is no plainer: each line begins behind the end of the one before, which a call tells
    while at <= labels.text.len() {
        let judged = match judge(labels, at, line, count) {
            Ok(judged) => judged,
            Err(refusal) => {
                return Err(Fault {
                    refusal,
                    line: line + 1,
                });
            }
        };
        if let Some(word) = judged {
            words[count] = word;
            count += 1;
        }
        line += 1;
        at = tokens::line_end(labels.text, at) + 1;
    }
    Ok(count)
}
