// What a replay works on.
use crate::steps::Step;
use answers::Refusal;
use float32::{from_word, to_word};
use records::add_first;
use std::array;

const TABLE_WORDS: usize = 400;

const VERTEX_FLOATS: usize = 2400;

const TRIANGLE_WORDS: usize = 4800;

// The buffers that a set is kept in. Why it is a struct of this program's own is said at
// `SetBuffers` of `sweep`.
#[derive(Drop)]
pub(crate) struct Buffers {
    table: [u32; TABLE_WORDS],
    vertices: [f32; VERTEX_FLOATS],
    triangles: [u32; TRIANGLE_WORDS],
}

// The digest after one more word. The modulus is the largest prime below 2^32.
fn mix(digest: u32, word: u32) -> u32 {
    ((digest as u64 * 1000003 + word as u64) % 4294967291) as u32
}

// Words of any size.
fn garbage<const N: usize>(seed: u32) -> [u32; N] {
    let mut state = seed;
    array::from_fn(|_| {
        state = mix(state, 1);
        state
    })
}

// The first elements of a buffer, as many as are named, or all where there are fewer.
fn lent<T>(buffer: &mut [T], named: u32) -> &mut [T] {
    let end = buffer.len().min(named as usize);
    &mut buffer[..end]
}

impl Buffers {
    // Buffers full of garbage, words of any size and floats of any sort, of which the table is
    // then cleared.
    pub(crate) fn prepared() -> Buffers {
        let mut table = garbage(1);
        // An empty table alone is refused.
        let _ = shared_set::clear(&mut table);
        Buffers {
            table,
            vertices: garbage::<VERTEX_FLOATS>(2).map(|w| from_word(w)),
            triangles: garbage(3),
        }
    }

    // Does a step: writes its word, if the table reaches as far as its place, and then adds the
    // body of its record to the first elements of each buffer.
    pub(crate) fn run(&mut self, step: Step<'_>) -> Option<Result<(), Refusal>> {
        if let Some(entry) = self.table.get_mut(step.place as usize) {
            *entry = step.word;
        }
        add_first(
            step.record,
            lent(&mut self.table, step.entries),
            lent(&mut self.vertices, step.coordinates),
            lent(&mut self.triangles, step.indices),
        )
    }

    // One number for everything that the buffers hold.
    pub(crate) fn digest(&self) -> u32 {
        let coordinates = self.vertices.map(|x| to_word(x));
        let words = self.table.iter().chain(&coordinates).chain(&self.triangles);
        words.fold(0, |digest, word| mix(digest, *word))
    }
}
