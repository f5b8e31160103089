// Triangle lists, by the numbers of a body. Each call writes the body's triangles, with `first`
// added to each index, to the front of `out` and answers true; or it answers false and writes
// nothing, where the body is not permitted, a vertex would be numbered 2^28 or above, or `out` is
// too short. The C interface has no enum of bodies, so each kind has a function of its own; all of
// them go through `Topology::write_triangles`.
ghost use Rattle.std.specs.Prelude.{◌≡◌, length};
ghost use Rattle.surface.specs.Triangles.{flatten, shift};
ghost use Rattle.laws.specs.Overwrite.{placed};
ghost use Rattle.kinds.specs.Kinds.{triangles_of, writable};
ghost use Rattle.kinds.specs.declared.topology.Topology.{Topology};

use kinds::{Capsule, ClosedCylinder, Ribbon, Topology, Torus, Tube};

// Writes the triangles of a ribbon, by the segments of its curve.
#[unsafe(no_mangle)]
pub extern "C" fn togbefulo_ribbon_triangles(segments: u16, first: u32, out: &mut [u32]) -> bool
    ensures written { let body = Topology.Ribbon (record { segments = segments }) in
        result ≡ writable body first (length out.old) }
    ensures out_after { let body = Topology.Ribbon (record { segments = segments }) in
        out.new ≡ placed result (flatten (shift first (triangles_of body))) out.old }
{
    Topology::Ribbon(Ribbon { segments }).write_triangles(first, out)
}

// Writes the triangles of a tube, by its divisions and the segments of its curve.
#[unsafe(no_mangle)]
pub extern "C" fn togbefulo_tube_triangles(
    divisions: u16,
    segments: u16,
    first: u32,
    out: &mut [u32],
) -> bool
    ensures written { let body = Topology.Tube
        (record { divisions = divisions; segments = segments }) in
        result ≡ writable body first (length out.old) }
    ensures out_after { let body = Topology.Tube
        (record { divisions = divisions; segments = segments }) in
        out.new ≡ placed result (flatten (shift first (triangles_of body))) out.old }
{
    Topology::Tube(Tube {
        divisions,
        segments,
    })
    .write_triangles(first, out)
}

// Writes the triangles of a capsule, by its divisions, the longitudes of each cap and the segments
// of its curve.
#[unsafe(no_mangle)]
pub extern "C" fn togbefulo_capsule_triangles(
    divisions: u16,
    longitudes: u16,
    segments: u16,
    first: u32,
    out: &mut [u32],
) -> bool
    ensures written { let body = Topology.Capsule
        (record { divisions = divisions; longitudes = longitudes; segments = segments }) in
        result ≡ writable body first (length out.old) }
    ensures out_after { let body = Topology.Capsule
        (record { divisions = divisions; longitudes = longitudes; segments = segments }) in
        out.new ≡ placed result (flatten (shift first (triangles_of body))) out.old }
{
    Topology::Capsule(Capsule {
        divisions,
        longitudes,
        segments,
    })
    .write_triangles(first, out)
}

// Writes the triangles of a torus, by its divisions and the vertices of its curve.
#[unsafe(no_mangle)]
pub extern "C" fn togbefulo_torus_triangles(
    divisions: u16,
    vertices: u16,
    first: u32,
    out: &mut [u32],
) -> bool
    ensures written { let body = Topology.Torus
        (record { divisions = divisions; vertices = vertices }) in
        result ≡ writable body first (length out.old) }
    ensures out_after { let body = Topology.Torus
        (record { divisions = divisions; vertices = vertices }) in
        out.new ≡ placed result (flatten (shift first (triangles_of body))) out.old }
{
    Topology::Torus(Torus {
        divisions,
        vertices,
    })
    .write_triangles(first, out)
}

// Writes the triangles of a closed cylinder, by its divisions and its layers.
#[unsafe(no_mangle)]
pub extern "C" fn togbefulo_closed_cylinder_triangles(
    divisions: u16,
    layers: u16,
    first: u32,
    out: &mut [u32],
) -> bool
    ensures written { let body = Topology.ClosedCylinder
        (record { divisions = divisions; layers = layers }) in
        result ≡ writable body first (length out.old) }
    ensures out_after { let body = Topology.ClosedCylinder
        (record { divisions = divisions; layers = layers }) in
        out.new ≡ placed result (flatten (shift first (triangles_of body))) out.old }
{
    Topology::ClosedCylinder(ClosedCylinder { divisions, layers }).write_triangles(first, out)
}
