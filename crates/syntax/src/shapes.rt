// The shapes of a line, in a file of their own: the function `shape` stands in lib.rt.

/// What a line holds, with the number that crates/grammar/specs/Reading/Shapes.antt gives it.
#[derive(Clone, Copy, Debug, PartialEq, Eq)]
pub enum Shape {
    Nothing = 0,
    Label,
    // an instruction or a value, which is one word of memory
    Word,
}
