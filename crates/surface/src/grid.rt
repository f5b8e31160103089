ghost use Rattle.std.specs.Prelude.{◌≡◌, ◌<◌, length};
ghost use Rattle.laws.specs.Overwrite.{overwrite};
ghost use Rattle.surface.specs.Triangles.{flatten};
ghost use Rattle.surface.specs.Grid.{after_of, points_of, straight_of, RowFits, RowsFit};
ghost use Rattle.surface.specs.Grid.{row_triangles, grid_triangles};
ghost use Rattle.surface.specs.Whole.{surface_grid, GridFits};
ghost use Rattle.surface.specs.declared.grid.Chain.TheVariants.{Open};

use crate::quads::{put, quad};
use crate::raise::repeat_raised;
use crate::whole::Surface;

// A chain of points: open, with two ends, or closed, where the first point follows the last.
#[derive(Clone, Copy, Debug, PartialEq, Eq)]
pub enum Chain {
    Open,
    Closed,
}

impl Chain {
    // The point after point `i` on a chain of `n` steps.
    pub(crate) fn after(self, n: u32, i: u32) -> u32
        requires { i < n }
        ensures { result ≡ after_of self n i }
    {
        match self {
            Chain::Open => i + 1,
            Chain::Closed => { if i + 1 < n { i + 1 } else { 0 } }
        }
    }

    // How many points a chain of `n` steps has.
    pub(crate) fn points(self, n: u32) -> u64
        ensures { result ≡ points_of self n }
    {
        match self {
            Chain::Open => n as u64 + 1,
            Chain::Closed => n as u64,
        }
    }

    // How many of a chain's `n` steps lead to the next number: all but a closed chain's last.
    fn straight(self, n: u32) -> u32
        ensures { result ≡ straight_of self n }
    {
        match self {
            Chain::Open => n,
            Chain::Closed => n.saturating_sub(1),
        }
    }
}

// Writes a surface's row of quads between the rings whose first vertices are `low` and `high` to
// the front of `out`.
#[tactic(auto, using(laws::proofs::Overwrite::unwritten))]
fn write_row(out: &mut [u32], s: Surface, low: u32, high: u32)
    requires { RowFits s.round s.columns low high (length out.old) }
    ensures { let row = row_triangles s.split s.round s.columns low high in
        out.new ≡ overwrite 0 (flatten row) out.old }
{
    let columns = s.columns as u32;
    for i in 0..columns {
        let next = s.round.after(columns, i);
        let triangles = quad(s.split, low + i, low + next, high + i, high + next);
        put(&mut out[6 * i as usize..], triangles);
    }
}

// Writes rows between rings that follow one another to the front of `out`. The first row is made
// of quads; each other row is the one before it, with the size of a ring added to its numbers.
fn write_rows(out: &mut [u32], s: Surface, rows: u32, base: u32)
    requires { RowsFit s.round rows s.columns base (length out.old) }
    ensures { let grid = grid_triangles s.split Open rows s.round s.columns base in
        out.new ≡ overwrite 0 (flatten grid) out.old }
{
    if rows == 0 {
        return;
    }
    let ring = s.ring_size();
    write_row(out, s, base, base + ring);
    repeat_raised(out, s.columns as usize * 6, rows, ring);
}

// Writes the grid of a surface to the front of `out`; vertex 0 of its ring 0 is `base`.
pub(crate) fn write_grid(out: &mut [u32], s: Surface, base: u32)
    requires { GridFits s base (length out.old) }
    ensures { out.new ≡ overwrite 0 (flatten (surface_grid s base)) out.old }
{
    let ahead = s.ending.chain().straight(s.rows);
    write_rows(out, s, ahead, base);
    if ahead < s.rows {
        let place = ahead as usize * s.columns as usize * 6;
        let low = base + ahead * s.ring_size();
        write_row(&mut out[place..], s, low, base);
    }
}
