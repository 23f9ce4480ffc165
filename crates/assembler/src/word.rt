// The word that a line of the grammar holds.
ghost use Rattle.std.specs.Prelude.{◌≡◌};
ghost use Rattle.labels.specs.Locating.{located};
ghost use Rattle.assembler.specs.Holding.{register_at, past_comma, operand_at, coded, constant_at, branch_at, one_at, two_at, three_at, datum_at, word_at};

use answers::Refusal;
use expressions::Line;
use tokens::Kind;

// How deep brackets go.
const DEEPEST: u32 = 16;

// A register's number, and the place behind it.
#[derive(Clone, Copy)]
pub(crate) struct Operand {
    pub(crate) register: u32,
    pub(crate) next: usize,
}

fn register(text: &[u8], at: usize) -> Operand
    ensures { result ≡ register_at text.now at }
{
    let t = tokens::token(text, at);
    Operand {
        register: (t.value % 16) as u32,
        next: t.next,
    }
}

// The place behind a comma, if there is one.
fn past_comma(text: &[u8], at: usize) -> usize
    ensures { result ≡ past_comma text.now at }
{
    let t = tokens::token(text, at);
    if t.kind == Kind::Comma { t.next } else { at }
}

// A register that a comma may precede.
fn next_register(text: &[u8], at: usize) -> Operand
    ensures { result ≡ operand_at text.now at }
{
    register(text, past_comma(text, at))
}

// An instruction's word.
fn coded(op: u32, a: u32, b: u32, low: u32) -> Result<u32, Refusal>
    ensures { result ≡ coded op a b low }
{
    instructions::encode(op, a, b, low)
}

// Const: an expression, then a register.
#[tactic(auto, unfolding(crate::specs::Holding::constant_at))]
fn constant(line: &Line, op: u32, at: usize) -> Result<u32, Refusal>
    ensures { result ≡ constant_at line.now.labels.text.now (located line.now.labels.text.now line.now.labels.table.now line.now.labels.complete) line.now.dot op at }
{
    let read = line.expression(at, DEEPEST)?;
    let low = values::fit(read.value, 0, 65535, 65536)?;
    let d = next_register(line.labels.text, read.next);
    coded(op, d.register, 0, low)
}

// Bnz: a register, then an expression.
#[tactic(auto, unfolding(crate::specs::Holding::branch_at))]
fn branch(line: &Line, op: u32, at: usize) -> Result<u32, Refusal>
    ensures { result ≡ branch_at line.now.labels.text.now (located line.now.labels.text.now line.now.labels.table.now line.now.labels.complete) line.now.dot op at }
{
    let a = register(line.labels.text, at);
    let read = line.expression(past_comma(line.labels.text, a.next), DEEPEST)?;
    let low = values::fit(read.value, 32768, 32767, 65536)?;
    coded(op, a.register, 0, low)
}

#[tactic(auto, unfolding(crate::specs::Holding::one_at))]
fn one(text: &[u8], op: u32, at: usize) -> Result<u32, Refusal>
    ensures { result ≡ one_at text.now op at }
{
    let a = register(text, at);
    coded(op, a.register, 0, 0)
}

#[tactic(auto, unfolding(crate::specs::Holding::two_at))]
fn two(text: &[u8], op: u32, at: usize) -> Result<u32, Refusal>
    ensures { result ≡ two_at text.now op at }
{
    let a = register(text, at);
    let b = next_register(text, a.next);
    coded(op, a.register, b.register, 0)
}

#[tactic(auto, unfolding(crate::specs::Holding::three_at))]
fn three(text: &[u8], op: u32, at: usize) -> Result<u32, Refusal>
    ensures { result ≡ three_at text.now op at }
{
    let a = register(text, at);
    let b = next_register(text, a.next);
    let d = next_register(text, b.next);
    coded(op, a.register, b.register, d.register)
}

// A data word.
#[tactic(auto, unfolding(crate::specs::Holding::datum_at))]
fn datum(line: &Line, at: usize) -> Result<u32, Refusal>
    ensures { result ≡ datum_at line.now.labels.text.now (located line.now.labels.text.now line.now.labels.table.now line.now.labels.complete) line.now.dot at }
{
    let read = line.expression(at, DEEPEST)?;
    values::fit(read.value, 0, 4294967295, 4294967296)
}

// The word of the line at a place.
pub(crate) fn word(line: &Line, at: usize) -> Result<u32, Refusal>
    ensures { result ≡ word_at line.now.labels.text.now (located line.now.labels.text.now line.now.labels.table.now line.now.labels.complete) line.now.dot at }
{
    let text = line.labels.text;
    let t = tokens::token(text, at);
    let op = (t.value % 16) as u32;
    match t.kind {
        Kind::Plain => coded(op, 0, 0, 0),
        Kind::Const => constant(line, op, t.next),
        Kind::Bnz => branch(line, op, t.next),
        Kind::One => one(text, op, t.next),
        Kind::Two => two(text, op, t.next),
        Kind::Three => three(text, op, t.next),
        _ => datum(line, at),
    }
}
