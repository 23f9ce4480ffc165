// Runs the sheet's lines about words on the decoder and the encoder, and counts the words of a sample that decode.
#![tactic(auto)]

ghost use Rattle.std.specs.Prelude.{◌≤◌};

use instructions::{decode, encode};

// The sample's low parts: 0 to 255, and 256, 512, .. to 65,280, so that every bit is met.
const LOW_PARTS: u32 = 511;

// The sample: every opcode, every pair of registers, every low part.
const SAMPLE: u32 = 256 * 256 * LOW_PARTS;

fn show_decoded(rt: HostRuntime, word: u32) {
    let _ = match decode(word) {
        Ok(i) => println!(rt;
            "{word:08x} answer 0 op {} a {} b {} low {}",
            i.op, i.a, i.b, i.low
        ),
        Err(refusal) => println!(rt;
            "{word:08x} answer {} op 0 a 0 b 0 low 0",
            u32::from(refusal)
        ),
    };
}

fn show_encoded(rt: HostRuntime, op: u32, a: u32, b: u32, low: u32) {
    let _ = print!(rt; "encode op {op} a {a} b {b} low {low} ");
    let _ = match encode(op, a, b, low) {
        Ok(word) => println!(rt; "answer 0 word {word:08x}"),
        Err(refusal) => println!(rt; "answer {} word 00000000", u32::from(refusal)),
    };
}

// Decodes a word and encodes its fields again.
fn show_again(rt: HostRuntime, word: u32) {
    if let Ok(i) = decode(word) {
        if let Ok(again) = encode(i.op, i.a, i.b, i.low) {
            let _ = println!(rt; "{word:08x} again {again:08x}");
        }
    }
}

fn low_part(i: u32) -> u32
    ensures { result ≤ 65535 }
{
    if i < 256 { i } else { (i - 255) % 256 * 256 }
}

// Word i of the sample.
fn sampled(i: u32) -> u32 {
    i / LOW_PARTS % 65536 * 65536 + low_part(i % LOW_PARTS)
}

// How many words of an opcode the sheet's table allows, where the low 16 bits have `lows` values.
fn allowed(op: u32, lows: u32) -> u32
    requires { lows ≤ 65536 }
    ensures { result ≤ 1048576 }
{
    match op {
        0 | 13 => 1,
        1 | 12 => 16 * lows,
        2 | 8 | 9 => 256,
        3..=7 => 4096,
        10 | 11 => 16,
        _ => 0,
    }
}

fn table_allows(lows: u32) -> u32
    requires { lows ≤ 65536 }
{
    let mut count = 0;
    for op in 0..256 {
        count += allowed(op, lows);
    }
    count
}

fn main(rt: HostRuntime) {
    for word in [
        0x01200007, 0x00000007, 0x0C10FFFF, 0x0C107FFF, 0x0C108000, 0x0D000000, 0x0D000001,
        0x0E000000, 0xFFFFFFFF, 0x03120003, 0x03120013,
    ] {
        show_decoded(rt, word);
    }
    show_encoded(rt, 1, 2, 0, 7);
    show_encoded(rt, 3, 1, 2, 3);
    show_encoded(rt, 13, 0, 0, 0);
    // opcode above 13, fields out of range, unused fields not 0
    show_encoded(rt, 14, 0, 0, 0);
    show_encoded(rt, 1, 16, 0, 7);
    show_encoded(rt, 2, 1, 16, 0);
    show_encoded(rt, 3, 1, 2, 16);
    show_encoded(rt, 12, 1, 0, 65536);
    show_encoded(rt, 0, 0, 0, 7);
    show_encoded(rt, 1, 2, 1, 7);
    show_encoded(rt, u32::MAX, u32::MAX, u32::MAX, u32::MAX);
    show_again(rt, 0x0C108000);
    show_again(rt, 0x09120000);
    let decoded = (0..SAMPLE).filter(|i| decode(sampled(*i)).is_ok()).count();
    let _ = println!(rt;
        "sample words {SAMPLE} decode {decoded} table {}",
        table_allows(LOW_PARTS)
    );
    let _ = println!(rt; "all table {}", table_allows(65536));
}
