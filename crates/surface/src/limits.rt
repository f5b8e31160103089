ghost use Rattle.std.specs.Prelude.{◌≡◌};
ghost use Rattle.surface.specs.Limits.{fits};

// The most vertices, and the most triangles, that a set may have: `most_in_all` of
// specs/Limits.antt.
pub const MOST_IN_ALL: usize = 1 << 28;

// Whether a set may have `total` vertices, or triangles, in a buffer of `room` elements: each
// takes three of them. The limit is tested first, so that the product does not wrap.
#[tactic(auto, unfolding(crate::specs::Limits::fits))]
pub fn fits(total: u64, room: usize) -> bool
    ensures { result ≡ fits total room }
{
    total <= MOST_IN_ALL as u64 && 3 * total <= room as u64
}
