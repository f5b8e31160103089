// Prints the worked bodies: for each case a head line with the kind's name, the sizes and both
// counts, then a line for each vertex, in hexadecimal. What it must print was made outside
// Rattle, by tests/src/bin/worked_bodies.rs from the adapted functions of del-msh.
#![tactic(auto)]

mod cases;
mod head;

use crate::cases::{BODIES, Case, MOST_COORDINATES};
use float32::to_word;
use hex_lines::write_triples;
use std::io::{self, Write};

// Writes the head line of a case and the body's vertices: none where the body is refused.
fn write_body<W: Write>(out: &mut W, case: Case) -> io::Result<()> {
    writeln!(out, "{case}")?;
    let Case { description, curve } = case;
    let mut values = [0.0f32; MOST_COORDINATES];
    if let Ok(body) = bodies::check(description, curve)
        && bodies::write_vertices(description, curve, &mut values)
    {
        let words = values.map(|x| to_word(x));
        let count = (body.vertex_count() as usize).min(words.len() / 3);
        write_triples(out, &words[..3 * count])?;
    }
    Ok(())
}

fn main(rt: HostRuntime) -> io::Result<()> {
    let mut out = io::writer(&rt);
    for case in BODIES {
        write_body(&mut out, case)?;
    }
    Ok(())
}
