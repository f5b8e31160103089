// Replays a fixed list of additions: reads its steps from standard input, fills the buffers with
// garbage, clears the table, and prints a line for each step. What it must print was made outside
// Rattle, by tests/src/bin/worked_additions.rs from the adapted functions of del-msh and the
// readings of document 01. That output is compared, so no function here has a contract: the check
// proves the program safe, and ending, for which the steps have a ghost `remaining`.
#![tactic(auto)]

mod buffers;
mod steps;

use crate::buffers::Buffers;
use crate::steps::Steps;
use answers::number;
use hex_lines::Words;
use little_endian::read_words;
use std::io::{self, Read, Write};
use streams::read_full;

const INPUT_WORDS: usize = 16384;

// What is printed for a record that is skipped: the output has a number for each step.
const SKIPPED: u32 = 0xFFFF_FFFF;

// Reads the input as words to the front of `words`, and answers the whole words that it has, as
// far as there is room.
fn read_input<'a, R: Read>(
    input: &mut R,
    words: &'a mut [u32; INPUT_WORDS],
) -> io::Result<&'a [u32]> {
    let mut bytes = [0u8; 4 * INPUT_WORDS];
    let count = read_full(input, &mut bytes)?;
    read_words(&bytes[..count], words);
    Ok(&words[..count / 4])
}

// Does all steps, and writes a line for each: the number that its addition answered, and the
// digest of what the buffers then hold.
fn replay<W: Write>(out: &mut W, steps: Steps<'_>) -> io::Result<()> {
    let mut buffers = Buffers::prepared();
    for step in steps {
        let number = buffers.run(step).map_or(SKIPPED, |answer| number(answer));
        writeln!(out, "{}", Words(&[number, buffers.digest()]))?;
    }
    Ok(())
}

fn main(rt: HostRuntime) -> io::Result<()> {
    let mut words = [0u32; INPUT_WORDS];
    let steps = Steps(read_input(&mut rt.stdin(), &mut words)?);
    replay(&mut io::writer(&rt), steps)
}
