ghost use Rattle.std.specs.Prelude.{◌≤◌, length};
ghost use Rattle.bodies.specs.Bodies.{CurveDirections};
ghost use Rattle.bodies.specs.Tables.{direction_count, RunsOnTables, RanOnTables};

use descriptions::Shaped;
use vec3::Point;

// How many directions a table has for a long curve: one for each of 4,096 segments, the most that
// a curve may have.
const DIRECTIONS: usize = 4096;

// How many directions a table has for a curve of at most 256 vertices. Every table is zeroed
// before it is filled, and a short curve should not wait until a long table is zeroed.
const FEW_DIRECTIONS: usize = 256;

// Writes the direction of each segment of the curve to the table. This is done once for a body:
// the check for folds (13) and the writer of the vertices both read the table.
#[tactic(auto, using(crate::proofs::Corners::directions))]
fn fill_table(shaped: Shaped<'_>, directions: &mut [Point])
    requires { direction_count shaped ≤ length directions.old }
    ensures { CurveDirections shaped.entry.description shaped.entry.curve.now directions.new }
{
    shaped.segments().fill_directions(directions);
}

// Fills the table of the directions of the curve's segments, and calls `step` with it, with a
// second table of the same length as scratch space, and with `out`. Both tables are arrays of
// POINTS points, since the core has no heap. `step` takes the tables and `out` as separate
// parameters: of a struct that holds a `&mut`, a clause can name no old and new contents.
fn with_tables_of<
    R,
    F: FnOnce(Shaped<'_>, &[Point], &mut [Point], &mut [f32]) -> R,
    const POINTS: usize,
>(shaped: Shaped<'_>, out: &mut [f32], step: F) -> R
    requires tables_room { direction_count shaped ≤ POINTS }
    requires tables_few { POINTS ≤ DIRECTIONS }
    requires step { RunsOnTables shaped out.old (F.pre step shaped) }
    ensures { RanOnTables shaped.entry out.old out.new result (F.post step shaped.entry) }
{
    let mut directions = [Point::thrice(0.0); POINTS];
    let mut ez = [Point::thrice(0.0); POINTS];
    fill_table(shaped, &mut directions);
    step(shaped, &directions, &mut ez, out)
}

// Does the same, with short tables for a short curve and long tables for any other.
pub(crate) fn with_tables<R, F: FnOnce(Shaped<'_>, &[Point], &mut [Point], &mut [f32]) -> R>(
    shaped: Shaped<'_>,
    out: &mut [f32],
    step: F,
) -> R
    requires step { RunsOnTables shaped out.old (F.pre step shaped) }
    ensures { RanOnTables shaped.entry out.old out.new result (F.post step shaped.entry) }
{
    if shaped.curve.len() / 3 <= FEW_DIRECTIONS {
        return with_tables_of::<_, _, FEW_DIRECTIONS>(shaped, out, step);
    }
    with_tables_of::<_, _, DIRECTIONS>(shaped, out, step)
}
