ghost use Rattle.std.specs.Prelude.{◌≡◌, ◌+◌};
ghost use Rattle.surface.specs.Limits.{fits};
ghost use Rattle.kinds.specs.Kinds.{vertex_count, triangle_count};
ghost use Rattle.answers.specs.Answers.{first_of, answer_of};
ghost use Rattle.set_table.specs.Room.{entry_permitted, room_tests};

use crate::entries::{ENTRY_WORDS, MOST_BODIES, table_words};
use crate::lengths::Lengths;
use crate::totals::Totals;
use answers::Refusal;
use kinds::Topology;

// Whether `total + more` vertices or triangles fit into a buffer of `length` elements. A sum that
// would wrap stays at the greatest number, which is above the limit too.
#[tactic(auto, unfolding(surface::specs::Limits::fits))]
fn is_sum_permitted(total: usize, more: u64, length: usize) -> bool
    ensures { result ≡ fits (total + more) length }
{
    surface::fits((total as u64).saturating_add(more), length)
}

// Whether a table of `length` words has room for one entry more.
#[tactic(auto, unfolding(crate::specs::Room::entry_permitted))]
fn is_entry_permitted(bodies: u32, length: usize) -> bool
    ensures { result ≡ entry_permitted bodies length }
{
    bodies != MOST_BODIES && table_words(bodies) + ENTRY_WORDS <= length
}

// Whether a body has room after those of a set: in the table (2), among the vertices (3) and among
// the triangles (4), which are lent with `lent` elements.
pub fn check_fit(totals: Totals, body: Topology, lent: Lengths) -> Result<(), Refusal>
    ensures { let tests = room_tests lent totals (vertex_count body) (triangle_count body) in
        answer_of result ≡ first_of tests tt }
{
    if !is_entry_permitted(totals.bodies, lent.table) {
        return Err(Refusal::NoEntry);
    }
    if !is_sum_permitted(totals.vertices, body.vertex_count(), lent.vertices) {
        return Err(Refusal::NoVertices);
    }
    if !is_sum_permitted(totals.triangles, body.triangle_count(), lent.triangles) {
        return Err(Refusal::NoTriangles);
    }
    Ok(())
}
