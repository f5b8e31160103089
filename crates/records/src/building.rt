ghost use Rattle.std.specs.Prelude.{◌≡◌, ◌+◌, ◌<◌, length};
ghost use Rattle.laws.specs.Overwrite.{overwrite};
ghost use Rattle.set_table.specs.Buffers.{buffers};
ghost use Rattle.answers.specs.Answers.{answer_of};
ghost use Rattle.ledger.specs.Calls.{additions};
ghost use Rattle.records.specs.Records.{additions_in};
ghost use Rattle.records.specs.Built.{replies_in, numbers_of, built, built_of};

use crate::first::add_first;
use crate::head::record_words;
use answers::{Refusal, number};

// Writes the number that a record got, if it got one, to place `i` of `answers`, unless that is
// past its end. Answers how many numbers there are now: a record that is skipped has none, so that
// no iterator over the records counts them.
fn put_answer(reply: Option<Result<(), Refusal>>, answers: &mut [u32], i: usize) -> usize
    requires { i < usize.MAX }
    ensures count { result ≡ i + length (replies_in reply) }
    ensures answers_after { answers.new ≡ overwrite i (numbers_of (replies_in reply)) answers.old }
{
    let Some(answer) = reply else {
        return i;
    };
    if i < answers.len() {
        answers[i] = number(answer);
    }
    i + 1
}

// Adds the bodies of all records, one after the other, and writes the number that each addition
// got to `answers`. The loop goes on with the words that are left: an iterator over records would
// be a type with laws of its own, for this loop alone.
fn add_all(
    records: &[u32],
    answers: &mut [u32],
    table: &mut [u32],
    vertices: &mut [f32],
    triangles: &mut [u32],
)
    ensures set_after { let s = buffers table.old vertices.old triangles.old in
        buffers table.new vertices.new triangles.new
        ≡ (additions (additions_in records.now) s).left }
    ensures answers_after { let s = buffers table.old vertices.old triangles.old in
        let calls = additions (additions_in records.now) s in
        answers.new ≡ overwrite 0 (numbers_of calls.answers) answers.old }
{
    let mut rest = records;
    let mut i: usize = 0;
    while let Some(words) = record_words(rest) {
        let reply = add_first(rest, table, vertices, triangles);
        i = put_answer(reply, answers, i);
        rest = &rest[words..];
    }
}

// Clears the set and adds the bodies of a list of records, which ends at a record that is cut
// short or names too many vertices. Writes the number that each addition got, 0 if it was
// accepted, to `answers`, as far as it reaches: one for each record of a known kind, in order. An
// empty table is refused (1), and nothing is written.
pub fn build(
    records: &[u32],
    answers: &mut [u32],
    table: &mut [u32],
    vertices: &mut [f32],
    triangles: &mut [u32],
) -> Result<(), Refusal>
    ensures { let before = buffers table.old vertices.old triangles.old in
        let after = buffers table.new vertices.new triangles.new in
        built (answer_of result) answers.new after
        ≡ built_of records.now answers.old before }
{
    shared_set::clear(table)?;
    add_all(records, answers, table, vertices, triangles);
    Ok(())
}
