// How many elements the three buffers of a set have: the table, the vertices and the triangles.
#[derive(Clone, Copy, Debug, PartialEq, Eq)]
pub struct Lengths {
    pub table: usize,
    pub vertices: usize,
    pub triangles: usize,
}
