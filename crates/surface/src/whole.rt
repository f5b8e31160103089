ghost use Rattle.std.specs.Prelude.{◌≡◌, true, length};
ghost use Rattle.laws.specs.Overwrite.{overwrite, placed};
ghost use Rattle.surface.specs.Triangles.{flatten};
ghost use Rattle.surface.specs.Whole.{chain_of, is_capped, ring_count, ring_size, placeable};
ghost use Rattle.surface.specs.Whole.{surface_vertex_count, surface_triangle_count};
ghost use Rattle.surface.specs.Whole.{surface_triangles};
ghost use Rattle.surface.specs.Whole.{SurfaceFits};

use crate::caps::{End, write_cap};
use crate::grid::{Chain, write_grid};
use crate::limits::{MOST_IN_ALL, fits};
use crate::quads::Split;

// How a grid of quads ends along the curve: in two open rims, in itself, or in two caps.
#[derive(Clone, Copy, Debug, PartialEq, Eq)]
pub enum Ending {
    Open,
    Closed,
    Capped,
}

impl Ending {
    // The chain of the rings.
    pub(crate) fn chain(self) -> Chain
        ensures { result ≡ chain_of self }
    {
        match self {
            Ending::Open | Ending::Capped => Chain::Open,
            Ending::Closed => Chain::Closed,
        }
    }

    // Whether there is a cap at each end.
    fn is_capped(self) -> bool
        ensures { result ≡ is_capped self }
    {
        self == Ending::Capped
    }
}

// A grid of `rows` by `columns` quads, between two caps where it is capped.
#[derive(Clone, Copy, Debug, PartialEq, Eq)]
pub struct Surface {
    pub split: Split,
    pub ending: Ending,
    pub rows: u32,
    pub round: Chain,
    pub columns: u16,
}

impl Surface {
    // How many rings of vertices there are.
    fn ring_count(self) -> u64
        ensures { result ≡ ring_count self }
    {
        self.ending.chain().points(self.rows)
    }

    // How many vertices a ring has.
    pub(crate) fn ring_size(self) -> u32
        ensures { result ≡ ring_size self }
    {
        self.round.points(self.columns as u32) as u32
    }

    // How many vertices it has: those of its rings, and a pole at each end where it is capped.
    #[tactic(auto, unfolding(crate::specs::Whole::surface_vertex_count))]
    pub fn vertex_count(self) -> u64
        ensures { result ≡ surface_vertex_count self }
    {
        let grid = self.ring_count() * self.ring_size() as u64;
        if self.ending.is_capped() {
            return grid + 2;
        }
        grid
    }

    // How many triangles it has: two for each quad, and one for each column of a cap.
    #[tactic(auto, unfolding(crate::specs::Whole::surface_triangle_count))]
    pub fn triangle_count(self) -> u64
        ensures { result ≡ surface_triangle_count self }
    {
        let columns = self.columns as u64;
        let grid = 2 * (self.rows as u64 * columns);
        if self.ending.is_capped() {
            return grid + 2 * columns;
        }
        grid
    }

    // Whether every vertex is numbered below `MOST_IN_ALL`, and the triangles are no more than
    // `MOST_IN_ALL` and have room.
    #[tactic(auto, using(crate::proofs::Counts::few_vertices), unfolding(crate::specs::Whole::placeable))]
    fn is_placeable(self, first: u32, room: usize) -> bool
        ensures { result ≡ placeable self first room }
    {
        first as u64 + self.vertex_count() <= MOST_IN_ALL as u64
            && fits(self.triangle_count(), room)
    }

    // Writes a capped surface as `put_triangles` does.
    fn put_capped(self, first: u32, out: &mut [u32])
        requires capped { is_capped self.ending ≡ true }
        requires room { SurfaceFits self first (length out.old) }
        ensures { out.new
            ≡ overwrite 0 (flatten (surface_triangles self first)) out.old }
    {
        let columns = self.columns as u32;
        let side = first + 1;
        // The last vertex, right after the last ring.
        let pole = first + self.vertex_count() as u32 - 1;
        let rim = pole - self.ring_size();
        let low = columns as usize * 3;
        let high = low + self.rows as usize * columns as usize * 6;
        write_cap(out, End::Bottom, columns, first, side);
        write_grid(&mut out[low..], self, side);
        write_cap(&mut out[high..], End::Top, columns, pole, rim);
    }

    // Writes the triangles of the surface whose first vertex is `first` to the front of `out`.
    #[tactic(auto, using(crate::proofs::Pieces::bare_parts))]
    pub fn put_triangles(self, first: u32, out: &mut [u32])
        requires { SurfaceFits self first (length out.old) }
        ensures { out.new
            ≡ overwrite 0 (flatten (surface_triangles self first)) out.old }
    {
        if self.ending.is_capped() {
            self.put_capped(first, out);
        } else {
            write_grid(out, self, first);
        }
    }

    // Writes the triangles as `put_triangles` does and answers true; or answers false and writes
    // nothing, where a vertex would be numbered `MOST_IN_ALL` or above, there are more triangles
    // than `MOST_IN_ALL`, or `out` is too short.
    #[tactic(auto, using(crate::proofs::Room::placeable_true))]
    pub fn write_triangles(self, first: u32, out: &mut [u32]) -> bool
        ensures answer { result ≡ placeable self first (length out.old) }
        ensures written { out.new
            ≡ placed result (flatten (surface_triangles self first)) out.old }
    {
        if self.is_placeable(first, out.len()) {
            self.put_triangles(first, out);
            return true;
        }
        false
    }
}
