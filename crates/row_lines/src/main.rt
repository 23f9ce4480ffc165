// Loads, steps and runs the image on standard input with tables of 63, 64 and 65 rows: the lines on both sides of 18.
#![tactic(auto)]

use loader::room::Room;
use machine::Processor;
use rows::{ROWS, Row};

const PLACES: usize = 13;

const BUDGET: u32 = 100;

// The row of a compartment.
fn show(rt: HostRuntime, rows: &[Row], compartment: u32) {
    let row = rows::row_at(rows, compartment);
    let _ = print!(rt;
        "; row {compartment}: {} {} {}",
        row.owned, row.jump, row.store
    );
}

// What a load that is lent the table answers; the record that it leaves.
fn load(rt: HostRuntime, room: &mut Room<PLACES>, bytes: &[u8], rows: &mut [Row]) -> Processor {
    let l = room.load_rows(false, bytes, rows);
    let _ = print!(rt; ": load {}", answers::answer_of(&l.answer));
    l.cpu
}

// What a run that is lent the table answers, how many steps ran, and what it left.
fn run(rt: HostRuntime, room: &mut Room<PLACES>, cpu: Processor, budget: u32, rows: &mut [Row]) {
    let r = room.run_rows(cpu, budget, rows);
    let _ = print!(rt; "; budget {budget} answer {} steps {}", r.answer, r.count);
    show(rt, rows, 0);
    show(rt, rows, 4);
    let _ = println!(rt; "");
}

// The line of one table, which a load and a run are lent. A refused load leaves the blank record, of which 14 is said before 18.
fn line(rt: HostRuntime, bytes: &[u8], rows: &mut [Row]) {
    let mut room = Room::new();
    let _ = print!(rt; "rows {}", rows.len());
    let cpu = load(rt, &mut room, bytes, rows);
    show(rt, rows, 0);
    run(rt, &mut room, cpu, BUDGET, rows);
}

// The line of one table that a run is lent, behind a load with 64 rows of their own.
fn line_after(rt: HostRuntime, bytes: &[u8], budget: u32, rows: &mut [Row]) {
    let mut room = Room::new();
    let _ = print!(rt; "then rows {}", rows.len());
    let cpu = load(rt, &mut room, bytes, &mut [Row::NONE; ROWS]);
    run(rt, &mut room, cpu, budget, rows);
}

fn main(rt: HostRuntime) {
    let mut buffer = [0; 8273];
    let n = streams::read_all(&mut rt.stdin(), &mut buffer).unwrap_or_else(|cut| cut.count);
    let bytes = &buffer[..n];
    let seven = Row {
        owned: 7,
        jump: 7,
        store: 7,
    };
    let mut short = [seven; 63];
    let mut right = [seven; 64];
    let mut long = [seven; 65];
    line(rt, bytes, &mut short);
    line(rt, bytes, &mut right);
    line(rt, bytes, &mut long);
    let mut wrong = [seven; 64];
    line_after(rt, bytes, 0, &mut short);
    line_after(rt, bytes, BUDGET, &mut short);
    line_after(rt, bytes, BUDGET, &mut wrong);
    line_after(rt, bytes, BUDGET, &mut long);
}
