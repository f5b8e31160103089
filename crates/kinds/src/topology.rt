ghost use Rattle.std.specs.Prelude.{◌≡◌, ◌+◌, ◌*◌, ◌≤◌, length};
ghost use Rattle.laws.specs.Overwrite.{overwrite, placed};
ghost use Rattle.surface.specs.Limits.{most_in_all};
ghost use Rattle.surface.specs.Triangles.{flatten, shift};
ghost use Rattle.kinds.specs.Kinds.{permitted, vertex_count, triangle_count};
ghost use Rattle.kinds.specs.Kinds.{triangles_of, surface_of, writable};

use crate::body::Body;
use crate::capsule::Capsule;
use crate::closed_cylinder::ClosedCylinder;
use crate::ribbon::Ribbon;
use crate::torus::Torus;
use crate::tube::Tube;
use surface::Surface;

// A body by its numbers alone: all that its counts and its triangles need.
#[derive(Clone, Copy, Debug, PartialEq, Eq)]
pub enum Topology {
    Ribbon(Ribbon),
    Tube(Tube),
    Capsule(Capsule),
    Torus(Torus),
    ClosedCylinder(ClosedCylinder),
}

// Each question is a match of its own. One match for all of them would hand out a `dyn Body`.
// There is none, since `Body` has `Copy` as a supertrait; and without it the gate would refuse a
// function that makes a `dyn` and hands it out.
impl Topology {
    // Whether each of its numbers is within its kind's limits.
    pub fn is_permitted(self) -> bool
        ensures { result ≡ permitted self }
    {
        match self {
            Topology::Ribbon(k) => k.is_permitted(),
            Topology::Tube(k) => k.is_permitted(),
            Topology::Capsule(k) => k.is_permitted(),
            Topology::Torus(k) => k.is_permitted(),
            Topology::ClosedCylinder(k) => k.is_permitted(),
        }
    }

    // The grid of quads that the body's list is made of.
    fn surface(self) -> Surface
        ensures { result ≡ surface_of self }
    {
        match self {
            Topology::Ribbon(k) => k.surface(),
            Topology::Tube(k) => k.surface(),
            Topology::Capsule(k) => k.surface(),
            Topology::Torus(k) => k.surface(),
            Topology::ClosedCylinder(k) => k.surface(),
        }
    }

    // How many vertices the body has.
    pub fn vertex_count(self) -> u64
        ensures { result ≡ vertex_count self }
    {
        match self {
            Topology::Ribbon(k) => k.vertex_count(),
            Topology::Tube(k) => k.vertex_count(),
            Topology::Capsule(k) => k.vertex_count(),
            Topology::Torus(k) => k.vertex_count(),
            Topology::ClosedCylinder(k) => k.vertex_count(),
        }
    }

    // How many triangles its list has.
    pub fn triangle_count(self) -> u64
        ensures { result ≡ triangle_count self }
    {
        match self {
            Topology::Ribbon(k) => k.triangle_count(),
            Topology::Tube(k) => k.triangle_count(),
            Topology::Capsule(k) => k.triangle_count(),
            Topology::Torus(k) => k.triangle_count(),
            Topology::ClosedCylinder(k) => k.triangle_count(),
        }
    }

    // Writes the body's triangles, with `first` added to each index, to the front of `out`.
    #[tactic(auto, using(crate::proofs::AsSurface::its_surface))]
    pub fn put_triangles(self, first: u32, out: &mut [u32])
        requires numbers { first + vertex_count self ≤ most_in_all }
        requires within { 3 * triangle_count self ≤ length out.old }
        ensures { out.new
            ≡ overwrite 0 (flatten (shift first (triangles_of self))) out.old }
    {
        self.surface().put_triangles(first, out);
    }

    // Writes the triangles as `put_triangles` does and answers true; or answers false and writes
    // nothing, where the body is not permitted, a vertex would be numbered 2^28 or above, or `out`
    // is too short.
    pub fn write_triangles(self, first: u32, out: &mut [u32]) -> bool
        ensures answer { result ≡ writable self first (length out.old) }
        ensures written { out.new
            ≡ placed result (flatten (shift first (triangles_of self))) out.old }
    {
        if self.is_permitted() {
            return self.surface().write_triangles(first, out);
        }
        false
    }
}
