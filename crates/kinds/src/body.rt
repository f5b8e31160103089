ghost use Rattle.std.specs.Prelude.{◌≡◌};
ghost use Rattle.kinds.specs.Kinds.{permitted, vertex_count, triangle_count, surface_of};
ghost use Rattle.kinds.specs.declared.topology.Topology.{Topology};

use surface::Surface;

// A body of one kind, by its numbers. Each kind has its limits as constants, and its counts as
// functions of its type, as document 01 asks. A body of another crate need not write its counts:
// they are those of its surface.
pub trait Body: Copy {
    // The body, as the definitions speak of it.
    ghost topology: { Self → Topology };

    // Whether its numbers lie within the limits.
    fn is_permitted(self) -> bool
        ensures { result ≡ permitted (topology self) };

    // The grid of quads that the body's list is made of.
    fn surface(self) -> Surface
        ensures { result ≡ surface_of (topology self) };

    // How many vertices the body has.
    #[tactic(auto, using(crate::proofs::AsSurface::same_vertices))]
    fn vertex_count(self) -> u64
        ensures { result ≡ vertex_count (topology self) }
    {
        self.surface().vertex_count()
    }

    // How many triangles its list has.
    #[tactic(auto, using(crate::proofs::AsSurface::same_triangles))]
    fn triangle_count(self) -> u64
        ensures { result ≡ triangle_count (topology self) }
    {
        self.surface().triangle_count()
    }
}

#[cfg(test)]
mod tests;
