// Writes the vertices of a body that is swept along a curve to a lent buffer, each kind by a
// function that has its name in del-msh.
#![tactic(auto)]

mod ending;
mod polyline3;
mod polyloop3;
mod spine;
mod swept;

pub use polyline3::{
    set_vtx2xyz_for_generalized_cylinder_open_end, to_trimesh3_capsule, to_trimesh3_ribbon,
};
pub use polyloop3::to_trimesh3_torus;
pub use spine::Spine;
pub use swept::Sweep;
