// Where a word stands in the map.

// Words in a row of the map.
pub(crate) const ROW: u32 = 64;

// The room of one owner in the picture's legend.
pub(crate) const ENTRY: u32 = 200;

// How many rows of `length` things `n` of them take.
pub(crate) fn rows(n: u32, length: u32) -> u32 {
    if length == 0 { 0 } else { n.div_ceil(length) }
}

// Where the picture's i-th cell of a row or column stands, from a place on; the i-th line of its legend; the i-th owner in a line.
pub(crate) fn cell_place(from: u32, i: u32) -> u32 {
    from.wrapping_add(i.wrapping_mul(18))
}

pub(crate) fn line_place(from: u32, i: u32) -> u32 {
    from.wrapping_add(i.wrapping_mul(24))
}

pub(crate) fn entry_place(from: u32, i: u32) -> u32 {
    from.wrapping_add(i.wrapping_mul(ENTRY))
}
