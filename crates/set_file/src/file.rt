ghost use Rattle.std.specs.Prelude.{◌≡◌};
ghost use Rattle.answers.specs.Answers.{answer_of};
ghost use Rattle.set_table.specs.Buffers.{buffers};
ghost use Rattle.set_file.specs.File.{file_word_of};

use crate::sound_set::SoundSet;
use answers::Refusal;
use set_table::read;

// Word `place` of the file of the set. A damaged table (1) and a place at the end or past it (5)
// are refused. The buffers come one by one, as a station lends them.
pub fn file_word(
    table: &[u32],
    vertices: &[f32],
    triangles: &[u32],
    place: usize,
) -> Result<u32, Refusal>
    ensures { let s = buffers table.now vertices.now triangles.now in
        answer_of result ≡ file_word_of s place }
{
    let totals = read(table, vertices.len(), triangles.len())?;
    let set = SoundSet {
        totals,
        table,
        vertices,
        triangles,
    };
    set.word(place)
}
