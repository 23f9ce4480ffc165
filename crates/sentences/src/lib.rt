// A word as the assembler spells it, and the field that an image is refused for. The wording has no contract.
#![tactic(auto)]

pub mod forms;
pub mod offsets;
