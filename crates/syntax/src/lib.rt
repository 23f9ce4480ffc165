// The shape of a line of source: nothing, a label, a word of memory, or no line.
#![tactic(auto)]

mod shapes;

ghost use Rattle.std.specs.Prelude.{◌≡◌, ◌≤◌, ◌<◌, ◌⊎◌, IfOk};
ghost use Rattle.grammar.specs.Reading.Shapes.{shape_of, rows, lone};
ghost use Rattle.sources.specs.Texts.{reading};
ghost use Rattle.grammar.specs.Laws.Runs.{line_at};
ghost use Rattle.tokens.specs.Kinds.{kind_number};
ghost use Rattle.syntax.specs.Levels.{level_of};
ghost use Rattle.syntax.specs.Seen.{seen_level, seen_shape};

use answers::Refusal;
pub use shapes::Shape;
use tokens::Kind;

// How many brackets may be open.
const DEEPEST: u32 = 16;

// No token of the kind may stand there. The name is short for the table's sake.
const X: u8 = 50;

// A row for each state, and in it for each kind of token the state behind it; and first, for the line's end, the shape.
const ROWS: [[u8; 19]; 20] = [
    // end Nop Const Bnz Jump Mov Add reg name num , : + - * . ( ) stray
    [0, 19, 6, 15, 12, 13, 14, X, 2, 5, X, X, X, 4, X, 5, 3, X, X], // 0 nothing stands yet
    [X, X, X, X, X, X, X, X, 11, 11, 9, X, X, 10, X, 11, 9, X, X], // 1 Bnz and its register
    [2, X, X, X, X, X, X, X, X, X, X, 18, 4, 4, 4, X, X, 5, X], // 2 a name, and nothing before it
    [X, X, X, X, X, X, X, X, 2, 5, X, X, X, 4, X, 5, 3, X, X], // 3 an expression that is the line: a sign may come
    [X, X, X, X, X, X, X, X, 5, 5, X, X, X, X, X, 5, 3, X, X], // 4 a factor has to come
    [2, X, X, X, X, X, X, X, X, X, X, X, 4, 4, 4, X, X, 5, X], // 5 a factor stands
    [X, X, X, X, X, X, X, X, 8, 8, X, X, X, 7, X, 8, 6, X, X], // 6, 7, 8 the same behind Const
    [X, X, X, X, X, X, X, X, 8, 8, X, X, X, X, X, 8, 6, X, X],
    [X, X, X, X, X, X, X, 19, X, X, 12, X, 7, 7, 7, X, X, 8, X],
    [X, X, X, X, X, X, X, X, 11, 11, X, X, X, 10, X, 11, 9, X, X], // 9, 10, 11 the same behind Bnz
    [X, X, X, X, X, X, X, X, 11, 11, X, X, X, X, X, 11, 9, X, X],
    [2, X, X, X, X, X, X, X, X, X, X, X, 10, 10, 10, X, X, 11, X],
    [X, X, X, X, X, X, X, 19, X, X, X, X, X, X, X, X, X, X, X], // 12 a register has to come, the last
    [X, X, X, X, X, X, X, 16, X, X, X, X, X, X, X, X, X, X, X], // 13 the last but one
    [X, X, X, X, X, X, X, 17, X, X, X, X, X, X, X, X, X, X, X], // 14 the first of three
    [X, X, X, X, X, X, X, 1, X, X, X, X, X, X, X, X, X, X, X], // 15 that of Bnz
    [X, X, X, X, X, X, X, 19, X, X, 12, X, X, X, X, X, X, X, X], // 16 the last, or a comma before it
    [X, X, X, X, X, X, X, 16, X, X, 13, X, X, X, X, X, X, X, X], // 17 the last but one, or a comma before it
    [1, X, X, X, X, X, X, X, X, X, X, X, X, X, X, X, X, X, X], // 18 a label stands with its colon
    [2, X, X, X, X, X, X, X, X, X, X, X, X, X, X, X, X, X, X], // 19 an instruction stands whole
];

// The table by value: a function that keeps it in a local has it built once.
fn table() -> [[u8; 19]; 20]
    ensures { result ≡ rows }
{
    ROWS
}

// Where the states behind tokens of a kind stand in a row.
fn column(kind: Kind) -> usize
    ensures { result ≡ kind_number kind }
{
    kind as usize
}

// Whether tokens of a kind stand outside of brackets only.
fn outside(kind: Kind) -> bool
    ensures { result ≡ lone (kind_number kind) }
{
    matches!(
        kind,
        Kind::Register | Kind::Comma | Kind::Colon | Kind::None
    )
}

// How many brackets are open behind a token.
fn level(kind: Kind, depth: u32) -> Result<u32, Refusal>
    requires { depth ≤ 16 }
    ensures level { seen_level result ≡ level_of (kind_number kind) depth }
    ensures few { IfOk result (λ n. n ≤ 16) }
{
    match kind {
        Kind::Left if depth == DEEPEST => Err(Refusal::TooDeep),
        Kind::Left => Ok(depth + 1),
        Kind::Right if depth == 0 => Err(Refusal::NoLine),
        Kind::Right => Ok(depth - 1),
        _ if depth > 0 && outside(kind) => Err(Refusal::NoLine),
        _ => Ok(depth),
    }
}

// What a line is that ends in a state, by the first entry of the state's row.
fn ended(entry: u8) -> Result<Shape, Refusal>
    requires { (entry < 3) ⊎ (entry ≡ 50) }
    ensures { seen_shape result ≡ entry }
{
    match entry {
        0 => Ok(Shape::Nothing),
        1 => Ok(Shape::Label),
        2 => Ok(Shape::Word),
        _ => Err(Refusal::NoLine),
    }
}

/// The shape of the line from a place on; `NoLine` or `TooDeep` where it is no line.
pub fn shape(text: &[u8], at: usize) -> Result<Shape, Refusal>
    ensures { seen_shape result ≡ shape_of (reading (line_at text.now at)) }
{
    let rows = table();
    let mut place = at;
    let mut state = 0;
    let mut depth = 0;
    loop {
        let t = tokens::token(text, place);
        let behind = level(t.kind, depth)?;
        let next = rows[state][column(t.kind)];
        if t.kind == Kind::None {
            return ended(next);
        }
        if next == X {
            return Err(Refusal::NoLine);
        }
        state = usize::from(next);
        depth = behind;
        place = t.next;
    }
}
