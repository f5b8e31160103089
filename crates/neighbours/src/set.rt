// Three bodies side by side in the shared set.
use crate::markers;
use drawn_bodies::{Triple, load_triple};
use float32::{from_word, to_word};

// The words of a table of 64 bodies. A test's numbers do not come from what is tested, so this is
// not worked out by the crate set_table.
pub(crate) const WORDS: usize = 385;

// Room for the coordinates of 4,096 vertices, and for the indices of as many triangles.
pub(crate) const ELEMENTS: usize = 12288;

// The buffers of a set, with the bits of its coordinates, since the comparison goes word by word.
// Why it is a struct of this program's own is said at `SetBuffers` of `sweep`.
#[derive(Drop)]
pub(crate) struct Set {
    pub table: [u32; WORDS],
    pub coordinates: [u32; ELEMENTS],
    pub triangles: [u32; ELEMENTS],
}

impl Set {
    // Fills the buffers with their patterns and loads the triple into them. The buffers stay where
    // they lie: with buffers handed back by value, and floats by `map`, the program took twice as
    // long.
    pub(crate) fn load(&mut self, triple: Triple) {
        let mut vertices = [0f32; ELEMENTS];
        markers::TABLE.fill(&mut self.table);
        markers::VERTICES.fill(&mut self.coordinates);
        markers::TRIANGLES.fill(&mut self.triangles);
        for (x, word) in vertices.iter_mut().zip(&self.coordinates) {
            *x = from_word(*word);
        }
        load_triple(triple, &mut self.table, &mut vertices, &mut self.triangles);
        for (word, x) in self.coordinates.iter_mut().zip(&vertices) {
            *word = to_word(*x);
        }
    }
}
