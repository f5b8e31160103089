// Curves that cannot fold, in eighths, so that every sum of coordinates is exact.
use crate::cases::Case;
use crate::generator::{Generator, eighths};

// Room for the coordinates of any case.
pub(crate) const COORDINATES: usize = 768;

// Fills the slice with an open curve: x and y wander, and z rises by 1/4 or more at each segment.
// Each z is the one before and a drawn rise, so the loop keeps a running sum.
fn fill_open(mut generator: Generator, curve: &mut [f32]) {
    let mut z = 0.0f32;
    let (curve, _) = curve.as_chunks_mut::<3>();
    for vertex in curve {
        let x = eighths(generator.below(16));
        let y = eighths(generator.below(16));
        *vertex = [x, y, z];
        z += eighths(2 + generator.below(8));
    }
}

// Fills the slice with a closed curve of this number of vertices. Seen along z it is an arch over
// its closing segment, which rises less at each vertex; z wanders. The number is a `u8` beside the
// slice, since only of a small integer is it proved that a float holds it exactly.
fn fill_closed(vertices: u8, mut generator: Generator, curve: &mut [f32]) {
    let mut x = 0.0f32;
    let mut y = 0.0f32;
    let mut rise = (vertices as f32 - 2.0) * 0.5;
    let (curve, _) = curve.as_chunks_mut::<3>();
    for vertex in curve {
        *vertex = [x, y, eighths(generator.below(16))];
        x += 0.5;
        y += rise;
        rise -= 1.0;
    }
}

impl Case {
    // Writes the coordinates of the case's curve to the front of `space`, and answers them.
    pub(crate) fn curve(self, space: &mut [f32; COORDINATES]) -> &[f32] {
        let curve = &mut space[..3 * self.vertices as usize];
        let mut generator = Generator(self.seed);
        generator.step();
        if self.is_closed() {
            fill_closed(self.vertices, generator, curve);
        } else {
            fill_open(generator, curve);
        }
        curve
    }
}
