// Each body at its place in the set, compared with the body alone, and what lies past the bodies
// with what it held before.
use crate::compare::{compare_past, compare_words};
use crate::markers;
use crate::set::Set;
use crate::tally::Tally;
use descriptions::Counts;
use drawn_bodies::{Alone, Case, Triple};

// The words of an entry. A test's numbers do not come from what is tested, so this is not the
// constant of the crate set_table.
const ENTRY: usize = 6;

// Compares the entry of a case, whose vertices and triangles come after `first`.
fn compare_entry(case: Case, first: Counts, own: Counts, entry: &[u32; ENTRY]) -> Tally {
    let wanted = [
        case.entry_kind(),
        case.entry_divisions(),
        first.vertices,
        own.vertices,
        first.triangles,
        own.triangles,
    ];
    compare_words(&wanted, 0, entry)
}

// Compares the first `count` triples of `alone`, with `shift` added to each word, with those of
// `set` from triple `first` on. Where either slice is too short, that is one difference.
fn compare_stretch(first: u32, count: u32, shift: u32, alone: &[u32], set: &[u32]) -> Tally {
    let start = 3 * first as usize;
    let size = 3 * count as usize;
    match (alone.get(..size), set.get(start..start + size)) {
        (Some(own), Some(placed)) => compare_words(own, shift, placed),
        _ => Tally::DIFFERENCE,
    }
}

// The sums of both, which stay far below 2^32, where they would wrap. `Counts` has no `Add`,
// since nothing in the core adds counts.
fn sum(totals: Counts, own: Counts) -> Counts {
    Counts {
        vertices: totals.vertices.wrapping_add(own.vertices),
        triangles: totals.triangles.wrapping_add(own.triangles),
    }
}

impl Set {
    // Compares the vertices and triangles of a body, which come after `first`, with those that it
    // has alone.
    fn compare_body(&self, alone: &Alone, first: Counts) -> Tally {
        let own = alone.counts;
        let vertex = first.vertices;
        compare_stretch(
            vertex,
            own.vertices,
            0,
            &alone.coordinates,
            &self.coordinates,
        ) + compare_stretch(
            first.triangles,
            own.triangles,
            vertex,
            &alone.triangles,
            &self.triangles,
        )
    }

    // Compares word 0, and the table past the three entries.
    fn compare_table(&self) -> Tally {
        compare_words(&[3], 0, &self.table[..1])
            + compare_past(1 + 3 * ENTRY, markers::TABLE, &self.table)
    }

    // Compares the buffers past the bodies.
    fn compare_rest(&self, totals: Counts) -> Tally {
        let vertices = 3 * totals.vertices as usize;
        let triangles = 3 * totals.triangles as usize;
        compare_past(vertices, markers::VERTICES, &self.coordinates)
            + compare_past(triangles, markers::TRIANGLES, &self.triangles)
    }

    // Compares every element of the buffers.
    pub(crate) fn compare(&self, triple: Triple) -> Tally {
        let mut totals = Counts::default();
        let mut tally = self.compare_table();
        let mut alone = Alone::NONE;
        let (entries, _) = self.table[1..].as_chunks::<ENTRY>();
        for (entry, case) in entries.iter().zip(triple) {
            case.write_alone(&mut alone);
            tally = tally
                + compare_entry(case, totals, alone.counts, entry)
                + self.compare_body(&alone, totals);
            totals = sum(totals, alone.counts);
        }
        tally + self.compare_rest(totals)
    }
}
