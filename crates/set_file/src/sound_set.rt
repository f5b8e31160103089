ghost use Rattle.std.specs.Prelude.{◌≡◌, ◌++◌, ◌*◌, ◌≤◌, length};
ghost use Rattle.surface.specs.Limits.{most_in_all};
ghost use Rattle.answers.specs.Answers.{answer_of};
ghost use Rattle.set_table.specs.Entries.{table_words};
ghost use Rattle.set_table.specs.Buffers.{buffers};
ghost use Rattle.set_file.specs.File.{file_head, file_body, entries_held, floats_held};
ghost use Rattle.set_file.specs.File.{indices_held, word_in};

use answers::Refusal;
use set_table::{Totals, table_words};

// The edition of the file.
const EDITION: u32 = 1;

// How many words the file has before the entries.
const FILE_HEAD: usize = 4;

// A set whose table is not damaged: what the table says, and the three buffers, which hold it.
#[derive(Clone, Copy, Debug)]
pub(crate) struct SoundSet<'a> {
    pub totals: Totals,
    pub table: &'a [u32],
    pub vertices: &'a [f32],
    pub triangles: &'a [u32],
    pub ghost table_held: { table_words totals.bodies ≤ length table.now },
    pub ghost few_vertices: { totals.vertices ≤ most_in_all },
    pub ghost vertices_held: { 3 * totals.vertices ≤ length vertices.now },
    pub ghost few_triangles: { totals.triangles ≤ most_in_all },
    pub ghost triangles_held: { 3 * totals.triangles ≤ length triangles.now },
}

impl SoundSet<'_> {
    // The words of the file's head.
    fn head(self) -> [u32; FILE_HEAD]
        ensures { result ≡ file_head self.entry.totals }
    {
        let totals = self.totals;
        [
            EDITION,
            totals.bodies,
            totals.vertices as u32,
            totals.triangles as u32,
        ]
    }

    // Word `place` of what follows the head: the entries, then the vertices, then the triangles. A
    // place at the end or past it (5) is refused. The parts are asked one by one, since an
    // iterator over all three would walk to the place.
    fn body_word(self, place: usize) -> Result<u32, Refusal>
        ensures { let e = self.entry in
            let t = e.totals in
            let s = buffers e.table.now e.vertices.now e.triangles.now in
            let body = file_body (entries_held t s) (floats_held t s) (indices_held t s) in
            answer_of result ≡ word_in body place }
    {
        let entries = &self.table[1..table_words(self.totals.bodies)];
        if let Some(word) = entries.get(place) {
            return Ok(*word);
        }
        let place = place - entries.len();
        let vertices = &self.vertices[..3 * self.totals.vertices];
        if let Some(coordinate) = vertices.get(place) {
            return Ok(float32::to_word(*coordinate));
        }
        let place = place - vertices.len();
        let triangles = &self.triangles[..3 * self.totals.triangles];
        triangles.get(place).copied().ok_or(Refusal::PastEnd)
    }

    // Word `place` of the file of the set. A place at the end or past it (5) is refused.
    pub(crate) fn word(self, place: usize) -> Result<u32, Refusal>
        ensures { let e = self.entry in
            let t = e.totals in
            let s = buffers e.table.now e.vertices.now e.triangles.now in
            let body = file_body (entries_held t s) (floats_held t s) (indices_held t s) in
            answer_of result ≡ word_in (file_head t ++ body) place }
    {
        let head = self.head();
        if let Some(word) = head.get(place) {
            return Ok(*word);
        }
        self.body_word(place - head.len())
    }
}
