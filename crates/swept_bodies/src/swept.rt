ghost use Rattle.std.specs.Prelude.{◌≡◌, ◌*◌, ◌≤◌, length};
ghost use Rattle.laws.specs.Overwrite.{overwrite};
ghost use Rattle.swept_bodies.specs.Swept.{order_of, ring_about};

use crate::spine::Spine;
use ring_writers::{Turns, write_ring};
use rings::{Axes, Order, Ring};
use surface::Chain;

// What all rings along one curve share: the curve, the directions round a ring, and its radius.
#[derive(Clone, Copy, Debug)]
pub struct Sweep<'a> {
    pub spine: Spine<'a>,
    pub turns: &'a Turns,
    pub radius: f32,
}

impl Sweep<'_> {
    // The order in which the terms of a vertex are added up.
    fn order(&self) -> Order
        ensures { result ≡ order_of self.now.spine.segments.chain }
    {
        match self.spine.segments.chain {
            Chain::Open => Order::EyFirst,
            Chain::Closed => Order::SumFirst,
        }
    }

    // Writes the ring about `axes` to the front of `out`.
    #[tactic(auto, using(crate::proofs::Parts::ring_made))]
    pub fn write_ring(&self, out: &mut [f32], axes: Axes)
        requires { self.now.turns.now * 3 ≤ length out.old }
        ensures { let w = self.now in
            let ring = ring_about w.spine.segments.chain w.turns.now w.radius axes in
            out.new ≡ overwrite 0 ring out.old }
    {
        let ring = Ring::around(self.order(), axes, axes.origin, self.radius);
        write_ring(out, ring, self.turns);
    }
}
