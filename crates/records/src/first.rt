ghost use Rattle.std.specs.Prelude.{◌≡◌, map, ◌≤◌, length};
ghost use Rattle.std.specs.Float.{binary32};
ghost use Rattle.std.specs.Float.Ieee.{of_bits};
ghost use Rattle.laws.specs.Overwrite.{overwrite};
ghost use Rattle.set_table.specs.Buffers.{buffers};
ghost use Rattle.answers.specs.Answers.{answer_of};
ghost use Rattle.shared_set.specs.Additions.{taken};
ghost use Rattle.shared_set.specs.Set.{after, added};
ghost use Rattle.ledger.specs.Calls.{additions};
ghost use Rattle.records.specs.Records.{first_addition};
ghost use Rattle.records.specs.Built.{replies_in, called};

use crate::head::{HEAD_WORDS, MOST_VERTICES, describe, record_words};
use answers::Refusal;
use descriptions::Description;
use float32::from_word;

// The coordinates of the most vertices that a record may have.
const SCRATCH_FLOATS: usize = 3 * MOST_VERTICES;

// Writes the floats with the bit patterns `words`, whatever they are, to the front of `out`: by
// their index, since a proof knows nothing of elements that are written through a `zip`.
#[tactic(auto, using(laws::proofs::Overwrite::unwritten))]
fn fill_floats(words: &[u32], out: &mut [f32])
    requires { length words.now ≤ length out.old }
    ensures { out.new ≡ overwrite 0 (map (of_bits binary32) words.now) out.old }
{
    for (i, word) in words.iter().enumerate() {
        out[i] = from_word(*word);
    }
}

// Adds the body of `description` whose curve has these coordinates.
fn add_body(
    description: Description,
    coordinates: &[u32],
    table: &mut [u32],
    vertices: &mut [f32],
    triangles: &mut [u32],
) -> Result<(), Refusal>
    requires { length coordinates.now ≤ 1536 }
    ensures { after (answer_of result) table.new vertices.new triangles.new
        ≡ added (taken description (map (of_bits binary32) coordinates.now))
        (buffers table.old vertices.old triangles.old) }
{
    let mut scratch = [0f32; SCRATCH_FLOATS];
    fill_floats(coordinates, &mut scratch);
    let curve = &scratch[..coordinates.len()];
    shared_set::add(description, curve, table, vertices, triangles)
}

// Adds the body of the record that `words` begins with. Skips words that begin with no record, and
// a record whose kind is unknown: then there is no answer.
pub fn add_first(
    words: &[u32],
    table: &mut [u32],
    vertices: &mut [f32],
    triangles: &mut [u32],
) -> Option<Result<(), Refusal>>
    ensures { called (replies_in result) table.new vertices.new triangles.new
        ≡ additions (first_addition words.now)
        (buffers table.old vertices.old triangles.old) }
{
    let end = record_words(words)?;
    let (head, _) = words.split_first_chunk::<HEAD_WORDS>()?;
    let description = describe(head)?;
    let coordinates = &words[HEAD_WORDS..end];
    Some(add_body(description, coordinates, table, vertices, triangles))
}
