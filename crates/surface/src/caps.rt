ghost use Rattle.std.specs.Prelude.{◌≡◌, [], ◌∷◌, length};
ghost use Rattle.laws.specs.Overwrite.{overwrite};
ghost use Rattle.surface.specs.Triangles.{flatten};
ghost use Rattle.surface.specs.Caps.{cap_triangle, cap_triangles, CapFits};

use crate::grid::Chain;
use crate::quads::put;

// The two ends of a capped surface.
#[derive(Clone, Copy, Debug, PartialEq, Eq)]
pub enum End {
    Bottom,
    Top,
}

// The triangle between a pole and two neighbours on the ring next to it.
pub fn cap_triangle(end: End, pole: u32, here: u32, next: u32) -> [u32; 3]
    ensures { result ≡ flatten (cap_triangle end pole here next ∷ []) }
{
    match end {
        End::Bottom => [pole, here, next],
        End::Top => [pole, next, here],
    }
}

// Writes the cap between `pole` and a ring of `n` vertices, whose first is `rim`, to the front of
// `out`.
#[tactic(auto, using(laws::proofs::Overwrite::unwritten))]
pub(crate) fn write_cap(out: &mut [u32], end: End, n: u32, pole: u32, rim: u32)
    requires { CapFits n rim (length out.old) }
    ensures { out.new ≡ overwrite 0 (flatten (cap_triangles end n pole rim)) out.old }
{
    for i in 0..n {
        let next = Chain::Closed.after(n, i);
        let triangle = cap_triangle(end, pole, rim + i, rim + next);
        put(&mut out[3 * i as usize..], [triangle]);
    }
}
