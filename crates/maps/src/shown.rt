// What is shown where one points at a word: its tags.
use crate::cells::Cell;
use grants::tell_members;
use std::io;

// The address, the owner, the sets, what the word holds, and whether pc stands there.
pub(crate) fn say_tags(rt: &impl Print, address: u32, word: u32, cell: Cell) -> io::Result<()> {
    print!(rt; "<title>word {address}: owner {}", cell.owner)?;
    tell_members(rt, "; jumpers: ", cell.jumpers)?;
    tell_members(rt, "; writers: ", cell.writers)?;
    if cell.strict {
        tell_members(rt, "; readers: ", cell.readers)?;
    }
    print!(rt; "; holds {word}")?;
    if cell.here {
        print!(rt; "; pc stands here")?;
    }
    print!(rt; "</title>")
}
