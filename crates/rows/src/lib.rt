// The table of rows that a host lends, one row a compartment: how rows are moved, and how the loader fills them.
#![tactic(auto)]

ghost use Rattle.std.specs.Prelude.{◌≡◌, length, if◌then◌else◌, nat_eq, slice_index_or};
ghost use Rattle.rules.specs.Compartments.{numbers};
ghost use Rattle.rules.specs.Rows.{no_row, fresh_row, fresh_rows};
ghost use Rattle.rules.specs.Laws.RowLaws.{lost, gained, settled};
ghost use Rattle.rows.specs.Views.{row_of, table};

/// The addresses owned, the jump targets and the store targets: the counts of one compartment, as the header's kl_row.
#[repr(C)]
#[derive(Clone, Copy, Debug, PartialEq, Eq)]
pub struct Row {
    pub owned: u32,
    pub jump: u32,
    pub store: u32,
}

// A table has a row for each compartment number.
pub const ROWS: usize = 64;

impl Row {
    /// The row of a number that no compartment has.
    pub const NONE: Row = Row {
        owned: 0,
        jump: 0,
        store: 0,
    };
}

// A compartment loses k of its addresses; a number that has no row is in none. Counts go modulo 2^32.
#[tactic(auto, using(crate::specs::TableLaws::not_lost))]
pub fn lose(rows: &mut [Row], number: u32, k: u32)
    ensures { table rows.new ≡ lost number k (table rows.old) }
{
    let i = number as usize;
    if i < rows.len() {
        let row = rows[i];
        rows[i] = Row {
            owned: row.owned.wrapping_sub(k),
            ..row
        };
    }
}

// A compartment gains k addresses, j jump targets and t store targets.
#[tactic(auto, using(crate::specs::TableLaws::not_gained))]
pub fn gain(rows: &mut [Row], number: u32, k: u32, j: u32, t: u32)
    ensures { table rows.new ≡ gained number k j t (table rows.old) }
{
    let i = number as usize;
    if i < rows.len() {
        let row = rows[i];
        rows[i] = Row {
            owned: row.owned.wrapping_add(k),
            jump: row.jump.wrapping_add(j),
            store: row.store.wrapping_add(t),
        };
    }
}

// What a service moves: its caller loses k addresses, and one compartment gains them, j jump targets and t store targets. Most adds
// change no tag, as the bit is set already: then no row is looked at.
pub fn settle(rows: &mut [Row], from: u32, to: u32, k: u32, j: u32, t: u32)
    ensures { table rows.new ≡ settled from to k j t (table rows.old) }
{
    if k != 0 || j != 0 || t != 0 {
        lose(rows, from, k);
        gain(rows, to, k, j, t);
    }
}

// The row of a compartment; a number that has no row has nothing.
pub fn row_at(rows: &[Row], number: u32) -> Row
    ensures { row_of result ≡ slice_index_or (table rows.now) number no_row }
{
    rows.get(number as usize).copied().unwrap_or(Row::NONE)
}

// A row as the loader fills it.
#[tactic(auto, unfolding(rules::specs::Rows::fresh_row))]
fn fresh(strict: bool, n: u32, number: u32) -> Row
    ensures { row_of result ≡ fresh_row strict n number }
{
    if number == 0 {
        Row {
            owned: n,
            jump: modes::service_count(strict),
            store: 0,
        }
    } else if modes::is_service_number(strict, number) {
        Row {
            owned: 1,
            jump: n,
            store: 0,
        }
    } else {
        Row::NONE
    }
}

// All 64 rows as the loader fills them; a table of another length stays as it was.
#[tactic(auto, using(crate::specs::TableLaws::fill_starts))]
pub fn fill(rows: &mut [Row], strict: bool, n: u32)
    ensures { table rows.new ≡ (if nat_eq (length rows.old) numbers then fresh_rows strict n else table rows.old) }
{
    if rows.len() == ROWS {
        for (number, row) in rows.iter_mut().enumerate() {
            *row = fresh(strict, n, number as u32);
        }
    }
}
