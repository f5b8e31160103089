ghost use Rattle.std.specs.Prelude.{◌≡◌, ◌+◌, ◌*◌, ◌≤◌, length};
ghost use Rattle.kinds.specs.Kinds.{triangle_count};
ghost use Rattle.set_table.specs.Entries.{table_words};
ghost use Rattle.set_table.specs.Table.{with_entry};
ghost use Rattle.shared_set.specs.Bodies.{body_alone, entry_of};
ghost use Rattle.shared_set.specs.Additions.{taken};
ghost use Rattle.shared_set.specs.Set.{with_triangles};

use crate::fitting::Fitting;
use set_table::{Entry, write_entry};

impl Fitting<'_> {
    // Writes the triangles and the entry of the body, and counts it in word 0.
    pub(crate) fn place(self, table: &mut [u32], triangles: &mut [u32])
        requires table_room { table_words (self.totals.bodies + 1) ≤ length table.old }
        requires triangles_room { 3 * (self.totals.triangles + triangle_count self.shaped.body)
            ≤ length triangles.old }
        ensures table_after { let f = self.entry in
            let a = taken f.shaped.description f.shaped.curve.now in
            let entry = entry_of f.totals (body_alone a) in
            table.new ≡ with_entry f.totals.bodies entry table.old }
        ensures triangles_after { let f = self.entry in
            let a = taken f.shaped.description f.shaped.curve.now in
            triangles.new ≡ with_triangles f.totals (body_alone a) triangles.old }
    {
        let Fitting { totals, shaped } = self;
        let body = shaped.body;
        let first = totals.vertices as u32;
        let at = 3 * totals.triangles;
        body.put_triangles(first, &mut triangles[at..]);
        let entry = Entry {
            kind: shaped.description.kind().into(),
            divisions: shaped.description.divisions(),
            vertex: first,
            vertices: body.vertex_count() as u32,
            triangle: totals.triangles as u32,
            triangles: body.triangle_count() as u32,
        };
        write_entry(table, totals.bodies, entry);
    }
}
