// Writes the vertices of a torus without a seam to a lent buffer: the frames that are carried
// round its loop are turned, each by its share of the twist at which they come back.
#![tactic(auto)]

mod frames;
mod polyloop3;

pub use polyloop3::to_trimesh3_seamless_torus;
