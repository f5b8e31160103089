// The shared set, in buffers that the caller lends. A description is handed over as in alone.rt.
// Answers are document 01's numbers, 0 for what is accepted, and 2^32 − 1 for an unknown kind.
ghost use Rattle.std.specs.Prelude.{◌≡◌};
ghost use Rattle.answers.specs.Answers.{number_in};
ghost use Rattle.descriptions.specs.KindNumbers.{described_of};
ghost use Rattle.set_table.specs.Buffers.{buffers};
ghost use Rattle.shared_set.specs.Set.{clear_answer, cleared};
ghost use Rattle.set_file.specs.File.{file_word_of};
ghost use Rattle.records.specs.Built.{built_of};
ghost use Rattle.togbefulo.specs.SetFace.{added_as, word_after};

use crate::described::{UNKNOWN_KIND, described};
use crate::words::put;
use answers::number;

// Empties the set: sets word 0 of the table to 0. An empty table is refused (1).
#[unsafe(no_mangle)]
pub extern "C" fn togbefulo_clear(table: &mut [u32]) -> u32
    ensures number { result ≡ number_in (clear_answer table.old) }
    ensures table_after { table.new ≡ cleared table.old }
{
    number(shared_set::clear(table))
}

// Adds a body to the set. Refuses a damaged table (1), then what `togbefulo_check` does, then a
// body for which there is no entry (2), no room for its vertices (3) or its triangles (4), and one
// of which a vertex, or what a seamless torus is twisted by, is not finite (23).
#[unsafe(no_mangle)]
pub extern "C" fn togbefulo_add(
    kind: u32,
    divisions: u32,
    steps: u32,
    centred: bool,
    size: f32,
    length: f32,
    curve: &[f32],
    table: &mut [u32],
    vertices: &mut [f32],
    triangles: &mut [u32],
) -> u32
    ensures number { let s = buffers table.old vertices.old triangles.old in
        let d = described_of kind divisions steps centred size length in
        result ≡ number_in (added_as d curve.now s).answer }
    ensures buffers_after { let s = buffers table.old vertices.old triangles.old in
        let d = described_of kind divisions steps centred size length in
        buffers table.new vertices.new triangles.new
        ≡ (added_as d curve.now s).left }
{
    let Some(description) = described(kind, divisions, steps, centred, size, length) else {
        return UNKNOWN_KIND;
    };
    number(shared_set::add(description, curve, table, vertices, triangles))
}

// Writes word `place` of the set's file to `word`. Refuses a damaged table (1) and a place at the
// end of the file or past it (5).
#[unsafe(no_mangle)]
pub extern "C" fn togbefulo_file_word(
    table: &[u32],
    vertices: &[f32],
    triangles: &[u32],
    place: usize,
    word: &mut [u32; 1],
) -> u32
    ensures number { let s = buffers table.now vertices.now triangles.now in
        result ≡ number_in (file_word_of s place) }
    ensures word_after { let s = buffers table.now vertices.now triangles.now in
        word.new ≡ word_after (file_word_of s place) word.old }
{
    let answer = set_file::file_word(table, vertices, triangles, place);
    put(answer.map(|w| [w]), word)
}

// Clears the set and adds the bodies of a list of records. Writes the number that each addition
// got to `answers`, as far as it reaches: one for each record of a known kind, in order. An empty
// table is refused (1), and nothing is written.
#[unsafe(no_mangle)]
pub extern "C" fn togbefulo_build(
    records: &[u32],
    answers: &mut [u32],
    table: &mut [u32],
    vertices: &mut [f32],
    triangles: &mut [u32],
) -> u32
    ensures number { let s = buffers table.old vertices.old triangles.old in
        result ≡ number_in (built_of records.now answers.old s).answer }
    ensures answers_after { let s = buffers table.old vertices.old triangles.old in
        answers.new ≡ (built_of records.now answers.old s).answers }
    ensures buffers_after { let s = buffers table.old vertices.old triangles.old in
        buffers table.new vertices.new triangles.new
        ≡ (built_of records.now answers.old s).left }
{
    number(records::build(records, answers, table, vertices, triangles))
}
