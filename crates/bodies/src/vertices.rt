ghost use Rattle.std.specs.Prelude.{◌≡◌, ◌*◌, ◌≤◌, length};
ghost use Rattle.std.specs.Result.{is_ok};
ghost use Rattle.laws.specs.Overwrite.{overwrite, placed};
ghost use Rattle.kinds.specs.Kinds.{vertex_count};
ghost use Rattle.answers.specs.Answers.{answer_of};
ghost use Rattle.descriptions.specs.Shapes.{folds_answer};
ghost use Rattle.bodies.specs.Bodies.{drawn_of, drawable};
ghost use Rattle.bodies.specs.Tables.{BodyTables, drawn};

use crate::folds::check_corners;
use crate::tables::with_tables;
use answers::Refusal;
use descriptions::{Description, Shaped};
use ring_writers::cylinder_closed_end_yup;
use seamless_torus::to_trimesh3_seamless_torus;
use swept_bodies::{
    set_vtx2xyz_for_generalized_cylinder_open_end, to_trimesh3_capsule, to_trimesh3_ribbon,
    to_trimesh3_torus,
};
use vec3::Point;

// Writes the vertices of a body to the front of `out`, from the table of its curve's directions.
// `ez` is scratch space.
fn fill(shaped: Shaped<'_>, directions: &[Point], ez: &mut [Point], out: &mut [f32])
    requires out_room { 3 * vertex_count shaped.body ≤ length out.old }
    requires tables { BodyTables shaped directions.now ez.old }
    ensures { out.new ≡ overwrite 0 (drawn shaped.entry) out.old }
{
    let curve = shaped.curve;
    match shaped.description {
        Description::Ribbon { width } => to_trimesh3_ribbon(out, curve, directions, width),
        Description::Tube {
            divisions: n,
            radius,
        } => {
            set_vtx2xyz_for_generalized_cylinder_open_end(
                out, curve, directions, ez, n as u16, radius,
            )
        }
        Description::Capsule {
            divisions: n,
            longitudes,
            radius,
        } => {
            let longitudes = longitudes as u16;
            to_trimesh3_capsule(out, curve, directions, ez, n as u16, longitudes, radius)
        }
        Description::Torus {
            divisions: n,
            radius,
        } => to_trimesh3_torus(out, curve, directions, n as u16, radius),
        Description::ClosedCylinder {
            divisions: n,
            layers,
            centred,
            radius,
            length,
        } => cylinder_closed_end_yup(out, radius, length, n as u16, layers as u16, centred),
        Description::SeamlessTorus {
            divisions: n,
            radius,
        } => to_trimesh3_seamless_torus(out, curve, directions, ez, n as u16, radius),
    }
}

// Writes them if the curve passes the check for folds (13), by the same table.
fn fill_unless_folded(
    shaped: Shaped<'_>,
    directions: &[Point],
    ez: &mut [Point],
    out: &mut [f32],
) -> Result<(), Refusal>
    requires out_room { 3 * vertex_count shaped.body ≤ length out.old }
    requires tables { BodyTables shaped directions.now ez.old }
    ensures answer { answer_of result ≡ folds_answer shaped.entry }
    ensures out_after { out.new ≡ placed (is_ok result) (drawn shaped.entry) out.old }
{
    check_corners(shaped, directions)?;
    fill(shaped, directions, ez, out);
    Ok(())
}

// Writes the vertices of a body of a permitted shape to the front of `out`.
fn write(shaped: Shaped<'_>, out: &mut [f32])
    requires { 3 * vertex_count shaped.body ≤ length out.old }
    ensures { out.new ≡ overwrite 0 (drawn shaped.entry) out.old }
{
    with_tables(shaped, out, fill)
}

// Checks the curve of a body of a permitted shape for folds (13), and writes the body's vertices
// to the front of `out` if it passes.
pub fn write_unless_folded(shaped: Shaped<'_>, out: &mut [f32]) -> Result<(), Refusal>
    requires { 3 * vertex_count shaped.body ≤ length out.old }
    ensures answer { answer_of result ≡ folds_answer shaped.entry }
    ensures out_after { out.new ≡ placed (is_ok result) (drawn shaped.entry) out.old }
{
    with_tables(shaped, out, fill_unless_folded)
}

// Writes the body's vertices to the front of `out`, whatever floats its sizes and its curve have,
// and answers true. If its shape is refused, for its number of curve vertices (refusal 10), its
// divisions (20) or its longitudes or layers (21), or if `out` is too short, it answers false and
// writes nothing.
#[tactic(auto, using(crate::proofs::Drawable::drawing))]
pub fn write_vertices(description: Description, curve: &[f32], out: &mut [f32]) -> bool
    ensures answer { result ≡ drawable description curve.now (length out.old) }
    ensures out_after { out.new ≡ placed result (drawn_of description curve.now) out.old }
{
    let Ok(shaped) = description.with_curve(curve) else {
        return false;
    };
    if !surface::fits(shaped.body.vertex_count(), out.len()) {
        return false;
    }
    write(shaped, out);
    true
}
