// The lines of a text of cases, told by their first letters. Upper case and figures begin a number in hexadecimal, other signs a remark.
use crate::image::Image;
use crate::running::After;
use crate::{damage, loading, reading, running, showing, writing};

// image NAME TO THE END OF THE LINE: as the run program runs it.
fn show_image(rt: HostRuntime, text: &[u8], bytes: &[u8]) {
    let _ = print!(rt; "-- ");
    showing::name(rt, text, b'\n');
    let _ = println!(rt; "");
    card::run_image(rt, false, bytes);
}

// Shows a name; returns the numbers after it.
fn named(rt: HostRuntime, text: &[u8]) -> [usize; 5] {
    reading::numbers(showing::name(rt, text, b' '))
}

// A run from a record whose next, and with the budget, that stand behind the name.
fn run_named(rt: HostRuntime, text: &[u8]) -> After {
    let n = named(rt, text);
    After::Run {
        next: (n[0] % 4294967296) as u32,
        budget: (n[1] % 4294967296) as u32,
    }
}

// The line of this letter: it shows the image, changes it, or says where it ends.
fn run_letter(rt: HostRuntime, letter: u8, text: &[u8], image: &mut Image) {
    match letter {
        // at WORD
        b'a' => image.turn_to(reading::first_number(text)),
        // cut NAME
        b'c' => {
            named(rt, text);
            damage::show_cuts(rt, image.bytes())
        }
        // examine NAME: the check, which is lent no memory
        b'e' => {
            named(rt, text);
            loading::show_checked(rt, image.bytes())
        }
        // fill WORDS
        b'f' => image.fill(reading::first_number(text)),
        b'i' => show_image(rt, text, image.bytes()),
        // keep BYTES
        b'k' => {
            let n = reading::first_number(text);
            image.reach(n, n)
        }
        // load NAME WORDS OWNERS JUMPERS WRITERS
        b'l' => loading::show_loaded(rt, false, image.bytes(), named(rt, text)),
        // new
        b'n' => image.reach(0, 0),
        // over NAME WORDS OWNERS JUMPERS WRITERS READERS: a load in strict mode
        b'o' => loading::show_loaded(rt, true, image.bytes(), named(rt, text)),
        // run NAME NEXT BUDGET
        b'r' => running::show_loaded_and(rt, false, image.bytes(), run_named(rt, text)),
        // strict NAME NEXT BUDGET
        b's' => running::show_loaded_and(rt, true, image.bytes(), run_named(rt, text)),
        // trip NAME
        b't' => {
            named(rt, text);
            running::show_loaded_and(rt, false, image.bytes(), After::Write)
        }
        // vary NAME BY
        b'v' => {
            let by = named(rt, text)[0];
            damage::show_changes(rt, image, by)
        }
        // write NAME WORDS ENTRY ROOM
        b'w' => writing::show_written(rt, image.bytes(), named(rt, text)),
        _ => (),
    }
}

pub(crate) fn run_lines(rt: HostRuntime, text: &[u8]) {
    let mut image = Image::new();
    let mut rest = text;
    while let Some(letter) = rest.first() {
        if *letter >= b'a' {
            let word = reading::through(rest, b' ');
            run_letter(rt, *letter, &rest[word..], &mut image);
        } else {
            image.put_line(rest);
        }
        rest = &rest[reading::through(rest, b'\n')..];
    }
}
