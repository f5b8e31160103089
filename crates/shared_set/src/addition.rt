ghost use Rattle.std.specs.Prelude.{◌≡◌};
ghost use Rattle.answers.specs.Answers.{answer_of};
ghost use Rattle.set_table.specs.Buffers.{buffers};
ghost use Rattle.shared_set.specs.Additions.{taken};
ghost use Rattle.shared_set.specs.Set.{after, added};

use crate::fitting::Fitting;
use answers::Refusal;
use descriptions::Description;
use set_table::{Lengths, check_fit, read};

// Adds a body to the set: writes its vertices, its triangles and its entry, and counts it in word
// 0 of the table. Or it answers the first refusal, in the order 1, 10, 20, 21, 22, 11, 12, 13, 2,
// 3, 4, 23. A lack of room (2, 3, 4) is known before the vertices are written, but a fold (13) is
// answered before it.
//
// The three buffers are separate parameters. If they were the fields of a struct, three `&mut`,
// each call would also have to promise that each field still lends the same buffer: four clauses
// in place of one here, and seven in place of two at `clear`.
pub fn add(
    description: Description,
    curve: &[f32],
    table: &mut [u32],
    vertices: &mut [f32],
    triangles: &mut [u32],
) -> Result<(), Refusal>
    ensures { after (answer_of result) table.new vertices.new triangles.new
        ≡ added (taken description curve.now) (buffers table.old vertices.old triangles.old) }
{
    let totals = read(table, vertices.len(), triangles.len())?;
    let shaped = description.check_segments(curve)?;
    let lent = Lengths {
        table: table.len(),
        vertices: vertices.len(),
        triangles: triangles.len(),
    };
    if let Err(why) = check_fit(totals, shaped.body, lent) {
        bodies::check_folds(shaped)?;
        return Err(why);
    }
    let fitting = Fitting { totals, shaped };
    fitting.draw(vertices)?;
    fitting.place(table, triangles);
    Ok(())
}
