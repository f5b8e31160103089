// Prints the worked triangle lists: for each case a head line with the kind's name, the sizes,
// the first vertex and both counts, then a line for each triangle, in hexadecimal. What it must
// print was made outside Rattle, by tests/src/bin/worked_lists.rs.
#![tactic(auto)]

mod cases;
mod head;

use crate::cases::{Case, LISTS, MOST_INDICES};
use hex_lines::write_triples;
use std::io::{self, Write};

// Writes the head line of a case and its list, which is none where it cannot be written.
fn write_list<W: Write>(out: &mut W, case: Case) -> io::Result<()> {
    writeln!(out, "{case}")?;
    let mut indices = [0u32; MOST_INDICES];
    if case.body.write_triangles(case.first, &mut indices) {
        let count = (case.body.triangle_count() as usize).min(indices.len() / 3);
        write_triples(out, &indices[..3 * count])?;
    }
    Ok(())
}

fn main(rt: HostRuntime) -> io::Result<()> {
    let mut out = io::writer(&rt);
    for case in LISTS {
        write_list(&mut out, case)?;
    }
    Ok(())
}
