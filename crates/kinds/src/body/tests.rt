ghost use Rattle.kinds.specs.declared.topology.Topology.TheVariants as topology;

use crate::body::Body;
use crate::torus::Torus;
use surface::Surface;

// A body as another crate may declare it, which has a torus's list and no counts of its own.
#[derive(Clone, Copy, Debug)]
struct Loop(Torus);

impl Body for Loop {
    ghost topology = { λ body. topology.Torus body.0 };

    fn is_permitted(self) -> bool {
        self.0.is_permitted()
    }

    fn surface(self) -> Surface {
        self.0.surface()
    }
}

// Document 01 gives a torus n N vertices and 2 n N triangles.
#[test]
fn counts_left_to_the_trait(rt: HostRuntime) {
    let body = Loop(Torus {
        divisions: 3,
        vertices: 5,
    });
    assert_eq!(rt; body.vertex_count(), 15);
    assert_eq!(rt; body.triangle_count(), 30);
}
