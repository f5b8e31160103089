// What the buffers hold before anything is loaded: each buffer has its own pattern, with another
// word at each place.

// A pattern, by its first word.
#[derive(Clone, Copy, Debug)]
pub(crate) struct Pattern(pub u32);

// The pattern of each buffer. No word of a table and no index is as large, and the vertices'
// pattern begins at the bits of 2^23, where no vertex lies.
pub(crate) const TABLE: Pattern = Pattern(0x5400_0000);

pub(crate) const VERTICES: Pattern = Pattern(0x4B00_0000);

pub(crate) const TRIANGLES: Pattern = Pattern(0x7100_0000);

impl Pattern {
    // The word at a place.
    pub(crate) fn word(self, place: usize) -> u32 {
        self.0.wrapping_add((place % 65536) as u32)
    }

    // Fills the buffer with the pattern.
    pub(crate) fn fill(self, words: &mut [u32]) {
        for (place, word) in words.iter_mut().enumerate() {
            *word = self.word(place);
        }
    }
}
