// Reads records from standard input, adds their bodies to a set, and writes the set's file to
// standard output.
//
// A record that is refused or whose kind is not 1 to 6 is skipped, and nothing is said of it. The
// reading stops at a record that is cut short or names more than 512 curve vertices, and where a
// read fails. The set then has the records before that, and a line on standard error says why.
// Another says so if the set could not be written whole, as where nobody reads the pipe any more.
// A read or a write that a signal interrupts is made again. The exit status is 0 in all these
// cases.
#![tactic(auto)]

mod input;
mod output;
mod report;
mod run;
mod set;

use crate::run::sweep;
use crate::set::{ELEMENTS, SetBuffers, TABLE};

fn main(rt: HostRuntime) {
    let mut set = SetBuffers {
        table: [0; TABLE],
        vertices: [0.0; ELEMENTS],
        triangles: [0; ELEMENTS],
    };
    sweep(
        &mut rt.stdin(),
        &mut rt.stdout(),
        &mut rt.stderr(),
        &mut set,
    );
}
