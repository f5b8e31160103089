// Bodies alone. A description is handed over as document 01's records have it: the kind's number,
// the divisions, the longitudes of a capsule or the layers of a closed cylinder, whether a closed
// cylinder is centred, the width or radius, and the length of a closed cylinder; what a kind lacks
// is ignored. Answers are document 01's numbers, 0 for what is accepted, and 2^32 − 1 for an
// unknown kind. The C interface needs both, the sizes one by one and the numbers.
ghost use Rattle.std.specs.Prelude.{◌≡◌};
ghost use Rattle.laws.specs.Overwrite.{placed};
ghost use Rattle.descriptions.specs.KindNumbers.{described_of};
ghost use Rattle.togbefulo.specs.Face.{check_number, counts_number, counts_after, is_drawn};
ghost use Rattle.togbefulo.specs.Face.{drawn_vertices};

use crate::described::{UNKNOWN_KIND, described};
use crate::words::put;
use answers::number;

// Writes how many vertices and triangles the body has to `counts`, or refuses the number of curve
// vertices (10), the divisions (20), the longitudes or layers (21) or a size (22).
#[unsafe(no_mangle)]
pub extern "C" fn togbefulo_counts(
    kind: u32,
    divisions: u32,
    steps: u32,
    centred: bool,
    size: f32,
    length: f32,
    vertices: usize,
    counts: &mut [u32; 2],
) -> u32
    ensures number { let d = described_of kind divisions steps centred size length in
        result ≡ counts_number d vertices }
    ensures counts_after { let d = described_of kind divisions steps centred size length in
        counts.new ≡ counts_after d vertices counts.old }
{
    let Some(description) = described(kind, divisions, steps, centred, size, length) else {
        return UNKNOWN_KIND;
    };
    put(description.counts(vertices).map(|k| k.into()), counts)
}

// Checks a description and its curve. Refuses what `togbefulo_counts` does (10, 20, 21, 22), then
// a coordinate that is not finite (11), a segment too short or too long (12) and a fold (13).
#[unsafe(no_mangle)]
pub extern "C" fn togbefulo_check(
    kind: u32,
    divisions: u32,
    steps: u32,
    centred: bool,
    size: f32,
    length: f32,
    curve: &[f32],
) -> u32
    ensures { let d = described_of kind divisions steps centred size length in
        result ≡ check_number d curve.now }
{
    let Some(description) = described(kind, divisions, steps, centred, size, length) else {
        return UNKNOWN_KIND;
    };
    number(bodies::check(description, curve))
}

// Writes the body's vertices to the front of `out` and answers true. Answers false and writes
// nothing if the number of curve vertices (10), the divisions (20) or the longitudes or layers
// (21) are refused, the kind is unknown or `out` is too short.
#[unsafe(no_mangle)]
pub extern "C" fn togbefulo_vertices(
    kind: u32,
    divisions: u32,
    steps: u32,
    centred: bool,
    size: f32,
    length: f32,
    curve: &[f32],
    out: &mut [f32],
) -> bool
    ensures drawn { let d = described_of kind divisions steps centred size length in
        result ≡ is_drawn d curve.now out.old }
    ensures out_after { let d = described_of kind divisions steps centred size length in
        out.new ≡ placed result (drawn_vertices d curve.now) out.old }
{
    let Some(description) = described(kind, divisions, steps, centred, size, length) else {
        return false;
    };
    bodies::write_vertices(description, curve, out)
}
