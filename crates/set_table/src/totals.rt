// What the entries of a table add up to: how many bodies there are, and how many vertices and
// triangles they have together.
#[derive(Clone, Copy, Debug, Default, PartialEq, Eq)]
pub struct Totals {
    pub bodies: u32,
    pub vertices: usize,
    pub triangles: usize,
}
