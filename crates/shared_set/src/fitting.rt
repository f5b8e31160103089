ghost use Rattle.std.specs.Prelude.{◌+◌, ◌≤◌, ◌<◌};
ghost use Rattle.surface.specs.Limits.{most_in_all};
ghost use Rattle.kinds.specs.Kinds.{vertex_count, triangle_count};
ghost use Rattle.set_table.specs.Room.{most_bodies};

use descriptions::Shaped;
use set_table::Totals;

// A body with which a set keeps to its limits: what the set adds up to without it, and the body.
#[derive(Clone, Copy, Debug)]
pub(crate) struct Fitting<'a> {
    pub totals: Totals,
    pub shaped: Shaped<'a>,
    pub ghost few_bodies: { totals.bodies < most_bodies },
    pub ghost few_vertices: { totals.vertices + vertex_count shaped.body ≤ most_in_all },
    pub ghost few_triangles: { totals.triangles + triangle_count shaped.body ≤ most_in_all },
}
