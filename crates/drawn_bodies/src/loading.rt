// Three bodies side by side in the shared set.
use crate::cases::Triple;
use crate::curves::COORDINATES;

// Clears the set and adds the three bodies. Where one is refused, word 0 will not be what it
// should be. Why the three buffers are no struct stands at `add` of the crate shared_set.
pub fn load_triple(triple: Triple, table: &mut [u32], vertices: &mut [f32], triangles: &mut [u32]) {
    let _ = shared_set::clear(table);
    for case in triple {
        let mut space = [0f32; COORDINATES];
        let curve = case.curve(&mut space);
        let _ = shared_set::add(case.describe(), curve, table, vertices, triangles);
    }
}
