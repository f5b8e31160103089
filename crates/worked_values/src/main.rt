// Prints the worked values of root, turn, first frame and transport step: a line for each case,
// with its words and the words of its result in hexadecimal. What it must print was made outside
// Rattle, by tests/src/bin/worked_values.rs.
#![tactic(auto)]

mod bits;
mod cases;
mod lines;

use crate::cases::{FIRST_FRAMES, ROOTS, TRANSPORT_STEPS, TURNS};
use crate::lines::{FirstFrame, Root};
use std::fmt::Display;
use std::io::{self, Write};

// Writes the line of each case.
fn write_lines<W: Write, C: Display>(out: &mut W, cases: &[C]) -> io::Result<()> {
    for case in cases {
        writeln!(out, "{case}")?;
    }
    Ok(())
}

fn main(rt: HostRuntime) -> io::Result<()> {
    let mut out = io::writer(&rt);
    write_lines(&mut out, &ROOTS.map(Root))?;
    write_lines(&mut out, &TURNS)?;
    write_lines(&mut out, &FIRST_FRAMES.map(FirstFrame))?;
    write_lines(&mut out, &TRANSPORT_STEPS)
}
