ghost use Rattle.std.specs.Prelude.{◌≡◌, ℕ, ◌+◌, ◌*◌, ◌<◌, ◌≤◌, length};
ghost use Rattle.vec3.specs.Points.{point_in};
ghost use Rattle.vec3.specs.Turns.{turn_of};
ghost use Rattle.rings.specs.Rings.{ring_vertex};

use rings::Ring;
use std::array;
use std::marker::Model;
use vec3::{Direction, Point, turn};

// The most vertices that a ring has.
const MOST_DIVISIONS: usize = 256;

// The directions round a ring of `divisions` vertices: the cosine of each and its sine, three
// times each, so that a vertex multiplies point by point. A body fills this table once, for all
// its rings. It has room for the most divisions, since the core has no heap. In a contract it is
// the number of its divisions, from which all else follows. Two arrays and not one of pairs: four
// cosines stand in memory as three full vectors, and so do four sines. From an array of pairs a
// ring took 1.28 to 1.34 times as long to write.
#[derive(Debug, Drop)]
pub struct Turns {
    cosines: [Point; MOST_DIVISIONS],
    sines: [Point; MOST_DIVISIONS],
    divisions: u16,
}

impl Model for Turns {
    ghost use Rattle.std.specs.Prelude.{ℕ};
    ghost use Rattle.ring_writers.specs.Tables.{HoldsTurns};

    ghost Value = { ℕ };

    ghost view = { λ t. t.divisions };

    ghost invariant = { λ t. HoldsTurns t.divisions t.cosines t.sines };
}

impl Turns {
    // A table of no directions.
    pub fn none() -> Turns
        ensures { result ≡ 0 }
    {
        Turns {
            cosines: [Point::thrice(0.0); MOST_DIVISIONS],
            sines: [Point::thrice(0.0); MOST_DIVISIONS],
            divisions: 0,
        }
    }

    // Makes it the directions round a ring of `n` vertices. It is filled where it lies, because a
    // table of six kilobytes that is handed back by value is copied twice.
    pub fn fill(&mut self, n: u16)
        requires { n ≤ 256 }
        ensures { self.new ≡ n }
    {
        for i in 0..n {
            let d = turn(i as u32, n as u32);
            self.cosines[i as usize] = Point::thrice(d.cos);
            self.sines[i as usize] = Point::thrice(d.sin);
        }
        self.divisions = n;
    }

    // How many vertices the ring has.
    pub fn divisions(&self) -> usize
        ensures same { result ≡ self.now }
        ensures most { result ≤ 256 }
    {
        self.divisions as usize
    }

    // How many floats the ring's vertices are.
    pub fn ring_floats(&self) -> usize
        ensures same { result ≡ self.now * 3 }
        ensures most { result ≤ 768 }
    {
        3 * self.divisions()
    }

    // Direction `i` of the ring.
    pub(crate) fn direction(&self, i: usize) -> Direction
        requires { i < self.now }
        ensures { result ≡ turn_of i self.now }
    {
        let Turns { cosines, sines, .. } = self;
        Direction {
            cos: cosines[i].x,
            sin: sines[i].x,
        }
    }

    // Vertex `i` of `ring`.
    pub(crate) fn vertex(&self, ring: Ring, i: usize) -> Point
        requires { i < self.now }
        ensures { result ≡ ring_vertex ring (turn_of i self.now) }
    {
        let Turns { cosines, sines, .. } = self;
        ring.vertex(cosines[i], sines[i])
    }

    // The vertices `i` to i + 3 of `ring`.
    pub(crate) fn four(&self, ring: Ring, i: usize) -> [Point; 4]
        requires { i + 4 ≤ self.now }
        ensures { (k : ℕ) → k < 4
            → point_in result k ≡ ring_vertex ring (turn_of (i + k) self.now) }
    {
        ring.four(four_at(&self.cosines, i), four_at(&self.sines, i))
    }
}

// The four points from the one at index `i` on.
fn four_at(points: &[Point], i: usize) -> [Point; 4]
    requires { i + 4 ≤ length points.now }
    ensures { (k : ℕ) → k < 4 → point_in result k ≡ point_in points.now (i + k) }
{
    array::from_fn(|k| points[i + k])
}
