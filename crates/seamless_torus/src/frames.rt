ghost use Rattle.std.specs.Prelude.{◌≡◌, ◌-◌, ◌≤◌, length};
ghost use Rattle.laws.specs.Overwrite.{overwrite};
ghost use Rattle.curve.specs.Framex.{carried_of};
ghost use Rattle.seamless_torus.specs.Frames.{frames_in, ends_at};

use curve::Carried;
use swept_bodies::Spine;
use twists::Ends;
use vec3::{Frame, Point};

// Writes the frames that are carried along a curve's segments, one after the other, to the front
// of `frames`, and answers what is carried on the last segment.
pub(crate) fn fill_frames(spine: &Spine, frames: &mut [Point]) -> Carried
    requires { spine.now.segments.count ≤ length frames.old }
    ensures carried { let s = spine.now.segments in
        result ≡ carried_of s.chain s.count s.curve.now (s.count - 1) }
    ensures written { let s = spine.now.segments in
        frames.new ≡ overwrite 0 (frames_in s.chain s.count s.curve.now) frames.old }
{
    let first = spine.first();
    frames[0] = first.frame.ex;
    let rest = &mut frames[1..];
    spine.walk(first, rest, 1, |_, carried, out| {
        out[0] = carried.frame.ex;
    })
}

// Carries the last frame across vertex 0, onto the first segment, which lies along `u`, and takes
// its dots with the frame there and with the axis across `u` and that frame.
#[tactic(auto, unfolding(crate::specs::Frames::ends_at))]
pub(crate) fn ends_at(last: Carried, u: Point, first: Frame) -> Ends
    ensures { result ≡ ends_at last u first }
{
    let x = last.next(u).frame.ex;
    let x0 = first.ex;
    Ends {
        c0: x.dot(x0),
        s0: x.dot(u.cross(x0)),
    }
}
