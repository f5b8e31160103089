// Loads bodies into the shared set, each between two others, since a ring that is written too far
// shows only in a neighbour. It compares every element of the buffers: each body with the same
// body alone, what lies past them with what it held before. First comes each kind between each two
// kinds, then bodies drawn by a small generator, and a line is printed for each of the two. A
// third line is of words of which two are wrong, so that a comparison which finds nothing shows.
// What it must print was made outside Rattle, by tests/src/bin/neighbours.rs from document 01's
// counts.
#![tactic(auto)]

mod compare;
mod markers;
mod placed;
mod set;
mod tally;

use crate::compare::compare_wrong;
use crate::set::{ELEMENTS, Set, WORDS};
use crate::tally::Tally;
use drawn_bodies::{DrawnTriples, Generator, Triple, triple_of_kinds};
use std::io;

const TRIPLES_OF_KINDS: u32 = 216;

const DRAWN_TRIPLES: usize = 400;

// The state that the first body is drawn from. From here no seamless torus has several best
// twists, among which an addition may choose.
const FIRST_STATE: u32 = 644;

// Loads the triple, and compares every element of the buffers.
fn load(triple: Triple) -> Tally {
    let mut set = Set {
        table: [0; WORDS],
        coordinates: [0; ELEMENTS],
        triangles: [0; ELEMENTS],
    };
    set.load(triple);
    set.compare(triple)
}

fn main(rt: HostRuntime) -> io::Result<()> {
    let kinds = (0..TRIPLES_OF_KINDS).map(triple_of_kinds);
    let tally: Tally = kinds.map(load).sum();
    println!(rt; "kinds: {TRIPLES_OF_KINDS} triples, {tally}")?;
    let drawn = DrawnTriples(Generator(FIRST_STATE)).take(DRAWN_TRIPLES);
    let tally: Tally = drawn.map(load).sum();
    println!(rt; "drawn: {DRAWN_TRIPLES} triples, {tally}")?;
    let tally = compare_wrong();
    println!(rt; "wrong: 0 triples, {tally}")
}
