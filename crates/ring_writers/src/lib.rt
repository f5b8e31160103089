// Writes rings of vertices to a lent buffer: single rings, the two ends of a capsule, and the
// closed cylinder, which needs no curve.
#![tactic(auto)]

mod caps;
mod ring_writer;
mod trimesh3_primitive;
mod turns;

pub use caps::write_end;
pub use curve::put_point;
pub use ring_writer::write_ring;
pub use trimesh3_primitive::cylinder_closed_end_yup;
pub use turns::Turns;
