// How many words a full table has: word 0, and six for each of 64 entries.
pub(crate) const TABLE: usize = 1 + 6 * 64;

// The elements of the vertex buffer, and of the triangle buffer.
pub(crate) const ELEMENTS: usize = 12288;

// A set in buffers of the greatest length that a set uses. The programs `neighbours` and
// `worked_additions` have structs of their own for a set. One struct for all three, in a crate
// below them, could share no more than three fields: the two give theirs methods, which no crate
// may give to another crate's type, and `neighbours` holds the bits of the coordinates.
#[derive(Drop)]
pub(crate) struct SetBuffers {
    pub table: [u32; TABLE],
    pub vertices: [f32; ELEMENTS],
    pub triangles: [u32; ELEMENTS],
}
