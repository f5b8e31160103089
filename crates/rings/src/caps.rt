ghost use Rattle.std.specs.Prelude.{◌≡◌};
ghost use Rattle.rings.specs.Rings.{cap_ring};
ghost use Rattle.rings.specs.Vertices.{cap_pole};

use crate::axes::Axes;
use crate::ring::{Order, Ring};
use surface::End;
use vec3::{Point, turn};

// One of a capsule's two caps: at which end it is, the axes there, and how many rings it has.
#[derive(Clone, Copy, Debug)]
pub struct Cap {
    pub end: End,
    pub axes: Axes,
    pub radius: f32,
    pub longitudes: u16,
}

impl Cap {
    // Ring `j` of the cap.
    pub fn ring(self, j: u16) -> Ring
        ensures { result ≡ cap_ring self.end self.axes self.radius self.longitudes j }
    {
        let Cap {
            end,
            axes,
            radius,
            longitudes,
        } = self;
        let quarters = 4 * longitudes as u32;
        let (order, t, along) = match end {
            End::Bottom => {
                let above = longitudes.saturating_sub(1).saturating_sub(j);
                let t = turn(above as u32, quarters);
                (Order::EyFirst, t, -radius * t.sin)
            }
            End::Top => {
                let t = turn(j as u32, quarters);
                (Order::ExFirst, t, radius * t.sin)
            }
        };
        let centre = axes.origin + axes.ez * along;
        Ring::around(order, axes, centre, radius * t.cos)
    }

    // The vertex at the tip of the cap.
    #[tactic(auto, unfolding(crate::specs::Vertices::bottom_pole, crate::specs::Vertices::top_pole))]
    pub fn pole(self) -> Point
        ensures { result ≡ cap_pole self.end self.axes self.radius }
    {
        let Axes { origin, ez, .. } = self.axes;
        let along = ez * self.radius;
        match self.end {
            End::Bottom => origin - along,
            End::Top => origin + along,
        }
    }
}
