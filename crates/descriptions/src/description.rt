ghost use Rattle.std.specs.Prelude.{◌≡◌};
ghost use Rattle.descriptions.specs.Descriptions.{curve_chain, start_checked, topology_of};
ghost use Rattle.descriptions.specs.KindNumbers.{kind_of, divisions_of};
ghost use Rattle.descriptions.specs.Refusals.{ShapePermitted};

use crate::along::Along;
use crate::kind::Kind;
use kinds::{Capsule, ClosedCylinder, Ribbon, Topology, Torus, Tube};
use surface::Chain;

// One of six kinds, each with its sizes. The curve is handed over beside it.
#[derive(Clone, Copy, Debug)]
pub enum Description {
    Ribbon {
        width: f32,
    },
    Tube {
        divisions: u32,
        radius: f32,
    },
    Capsule {
        divisions: u32,
        longitudes: u32,
        radius: f32,
    },
    Torus {
        divisions: u32,
        radius: f32,
    },
    ClosedCylinder {
        divisions: u32,
        layers: u32,
        centred: bool,
        radius: f32,
        length: f32,
    },
    SeamlessTorus {
        divisions: u32,
        radius: f32,
    },
}

impl Description {
    // Which of the six kinds.
    pub fn kind(self) -> Kind
        ensures { result ≡ kind_of self }
    {
        match self {
            Description::Ribbon { .. } => Kind::Ribbon,
            Description::Tube { .. } => Kind::Tube,
            Description::Capsule { .. } => Kind::Capsule,
            Description::Torus { .. } => Kind::Torus,
            Description::ClosedCylinder { .. } => Kind::ClosedCylinder,
            Description::SeamlessTorus { .. } => Kind::SeamlessTorus,
        }
    }

    // The number of its divisions round, as an entry has it: 0 for a ribbon.
    pub fn divisions(self) -> u32
        ensures { result ≡ divisions_of self }
    {
        match self {
            Description::Ribbon { .. } => 0,
            Description::Tube { divisions, .. }
            | Description::Capsule { divisions, .. }
            | Description::Torus { divisions, .. }
            | Description::ClosedCylinder { divisions, .. }
            | Description::SeamlessTorus { divisions, .. } => divisions,
        }
    }

    // Whether its curve is closed.
    pub fn chain(self) -> Chain
        ensures { result ≡ curve_chain self }
    {
        match self {
            Description::Torus { .. } | Description::SeamlessTorus { .. } => Chain::Closed,
            _ => Chain::Open,
        }
    }

    // Whether a fold (13) is also looked for at vertex 0, where a loop closes.
    pub(crate) fn is_start_checked(self) -> bool
        ensures { result ≡ start_checked self }
    {
        matches!(self, Description::SeamlessTorus { .. })
    }

    // The body by its numbers. A loop has as many vertices as segments.
    #[tactic(auto, using(crate::proofs::Shapes::limits))]
    pub(crate) fn topology(self, vertices: usize) -> Topology
        requires { ShapePermitted self vertices }
        ensures { result ≡ topology_of self vertices }
    {
        let along = Along {
            description: self,
            vertices,
        };
        let segments = along.segment_count();
        let divisions = self.divisions() as u16;
        match self {
            Description::Ribbon { .. } => Topology::Ribbon(Ribbon { segments }),
            Description::Tube { .. } => Topology::Tube(Tube {
                divisions,
                segments,
            }),
            Description::Capsule { longitudes, .. } => Topology::Capsule(Capsule {
                divisions,
                longitudes: longitudes as u16,
                segments,
            }),
            Description::Torus { .. } | Description::SeamlessTorus { .. } => Topology::Torus(
                Torus {
                    divisions,
                    vertices: segments,
                },
            ),
            Description::ClosedCylinder { layers, .. } => Topology::ClosedCylinder(
                ClosedCylinder {
                    divisions,
                    layers: layers as u16,
                },
            ),
        }
    }
}
