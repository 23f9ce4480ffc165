// The memory at the end of a run, drawn: a character or a cell for each word, by its owner. What is drawn comes from calls whose promises
// are whole; the drawing has no contract.
#![tactic(auto)]

mod cells;
mod legend;
mod picture;
mod places;
mod plain;
mod shapes;
mod shown;

use lines::numbers::argument;
use lines::status::Status;
use lines::{end, give_up};
use loader::room::Room;
use std::io;

/// How a map is drawn: in characters, or as a picture in SVG.
#[derive(Clone, Copy, Debug, PartialEq, Eq)]
pub enum Form {
    Text,
    Picture,
}

impl From<u32> for Form {
    fn from(form: u32) -> Form {
        match form {
            1 => Form::Picture,
            _ => Form::Text,
        }
    }
}

/// Runs an image in a mode, at most `budget` steps, and draws its memory in a form; answers its status.
pub fn map<R: Print + Eprint, F: Into<Form>>(
    rt: &R,
    strict: bool,
    bytes: &[u8],
    budget: u32,
    form: F,
) -> io::Result<Status> {
    let form: Form = form.into();
    let mut room = Room::<2048>::new();
    let l = room.load(strict, bytes);
    if let Err(refusal) = l.answer {
        let _ = eprintln!(rt; "refused {}", u32::from(refusal));
        return Ok(Status::Refused);
    }
    let ran = room.run(l.cpu, budget);
    let lent = room.lent();
    match form {
        Form::Text => plain::draw(rt, ran, &lent)?,
        Form::Picture => picture::draw(rt, ran, &lent)?,
    }
    Ok(Status::of(ran.answer))
}

/// Draws the image on standard input.
pub fn map_input(rt: HostRuntime) {
    let mut bytes = [0u8; 8273];
    let Ok(n) = streams::read_all(&mut rt.stdin(), &mut bytes) else {
        return give_up(&rt, "the image could not be read");
    };
    let budget = argument(&rt, 1, 100000);
    let strict = argument(&rt, 2, 0) == 1;
    let form = argument(&rt, 3, 0);
    match map(&rt, strict, &bytes[..n], budget, form) {
        Ok(status) => end(&rt, status),
        Err(_) => give_up(&rt, "the map could not be written"),
    }
}
