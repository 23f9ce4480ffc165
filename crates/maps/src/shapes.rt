// The pieces of the picture: colours, cells, texts and marks.
use crate::cells::{Cell, Mark};
use std::io;

// How texts, cells and marks look.
const LOOKS: &str = "<style>
text{font:12px sans-serif;fill:#000}
.h{font-weight:bold;font-size:14px}
.n{font-size:10px;text-anchor:middle}
.a{font-size:10px;text-anchor:end}
.w rect{stroke:#fff}
.w text{font:bold 11px monospace;text-anchor:middle}
.m{fill:#000;stroke:#fff}
.p{fill:none;stroke:#000;stroke-width:3}
.q{fill:none;stroke:#fff}
";

// Sixteen colours for owners. Those that follow one another differ in lightness too, so that no hue needs to be seen; 1 to 3 own no word.
const COLOURS: &str = ".o0{fill:#e4e4e4}
.o1{fill:#bbbbbb}
.o2{fill:#8a8a8a}
.o3{fill:#444444}
.o4{fill:#0072b2}
.o5{fill:#f0e442}
.o6{fill:#882255}
.o7{fill:#7cc8f2}
.o8{fill:#117733}
.o9{fill:#f2b134}
.o10{fill:#332288}
.o11{fill:#e39ac4}
.o12{fill:#a33d00}
.o13{fill:#88d8c8}
.o14{fill:#5a5a14}
.o15{fill:#ff9a76}
";

// A character is white on the dark ones.
const LETTERS: &str = ".o3 text,.o4 text,.o6 text,.o8 text,.o10 text,.o12 text,.o14 text{fill:#fff}
</style>
<rect width='100%' height='100%' fill='#fff'/>
";

pub(crate) fn say_style(rt: &impl Print) -> io::Result<()> {
    rt.print(LOOKS)?;
    rt.print(COLOURS)?;
    rt.print(LETTERS)
}

// The front of a text that stands at a place.
pub(crate) fn begin_text(rt: &impl Print, front: &str, x: u32, y: u32) -> io::Result<()> {
    print!(rt; "{front}{x}' y='{y}'>")
}

// The front of a cell in its owner's colour.
pub(crate) fn begin_cell(rt: &impl Print, owner: u32, x: u32, y: u32) -> io::Result<()> {
    print!(rt;
        "<g class='w o{}' transform='translate({x} {y})'>",
        owner % 16
    )
}

// The cell and its character.
pub(crate) fn end_cell(rt: &impl Print, sign: char) -> io::Result<()> {
    print!(rt; "<rect width='18' height='18'/><text x='9' y='13'>{sign}</text>")
}

impl Mark {
    // The mark in a cell: each has a shape and a corner of its own.
    pub(crate) fn shape(self) -> &'static str {
        match self {
            Mark::Pc => {
                "<path class='p' d='M1.5 1.5H16.5V16.5H1.5Z'/><path class='q' d='M3.5 3.5H14.5V14.5H3.5Z'/>"
            }
            Mark::Jump => "<path class='m' d='M1 1H8.5L1 8.5Z'/>",
            Mark::Store => "<path class='m' d='M11.5 11.5H17V17H11.5Z'/>",
            Mark::Read => "<circle class='m' cx='4' cy='14' r='3'/>",
        }
    }
}

// All marks of a word.
pub(crate) fn say_marks(rt: &impl Print, cell: Cell) -> io::Result<()> {
    for mark in Mark::ALL {
        if cell.has(mark) {
            rt.print(mark.shape())?;
        }
    }
    Ok(())
}
