ghost use Rattle.std.specs.Prelude.{◌≡◌, ◌*◌, ◌≤◌, length};
ghost use Rattle.std.specs.List.{flat_map};
ghost use Rattle.laws.specs.Overwrite.{overwrite};
ghost use Rattle.surface.specs.Triangles.{rows};
ghost use Rattle.surface.specs.Quads.{quad_of};

// How a quad is cut into its two triangles, named after the bodies whose lists have it. Capsule
// and closed cylinder are the capped ones.
#[derive(Clone, Copy, Debug, PartialEq, Eq)]
pub enum Split {
    Capped,
    Torus,
    Tube,
    Ribbon,
}

// The two triangles of a quad with corners a = (g, i), b = (g, i + 1), d = (g + 1, i) and
// e = (g + 1, i + 1).
pub fn quad(split: Split, a: u32, b: u32, d: u32, e: u32) -> [[u32; 3]; 2]
    ensures { result ≡ rows (quad_of split a b d e) }
{
    match split {
        Split::Capped => [[e, b, a], [d, e, a]],
        Split::Torus => [[a, b, d], [e, d, b]],
        Split::Tube => [[a, e, b], [a, d, e]],
        Split::Ribbon => [[a, b, d], [b, e, d]],
    }
}

// Copies triangles to the front of `out`. The rows of a grid and the caps each have a loop of
// their own that calls it. One loop for both would take a closure that makes `N` triangles at each
// step, but the bound `Fn` of such a closure may not name a const parameter `N`.
pub(crate) fn put<const N: usize>(out: &mut [u32], triangles: [[u32; 3]; N])
    requires { 3 * N ≤ length out.old }
    ensures { out.new ≡ overwrite 0 (flat_map (λ t. t) triangles.entry) out.old }
{
    out[..3 * N].copy_from_slice(triangles.as_flattened());
}
