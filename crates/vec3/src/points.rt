ghost use Rattle.std.specs.Prelude.{◌≡◌};
ghost use Rattle.vec3.specs.Points.{thrice, sum_of, difference_of, scaled, product_of};
ghost use Rattle.vec3.specs.Points.{quotient_of, dot_of, cross_of, norm_of, normalised};

use std::ops::{Add, Div, Mul, Sub};

// A vertex, a segment's direction or a frame's axis.
#[derive(Clone, Copy, Debug)]
pub struct Point {
    pub x: f32,
    pub y: f32,
    pub z: f32,
}

impl Point {
    // The same number on each axis.
    #[tactic(auto, unfolding(crate::specs::Points::thrice))]
    pub fn thrice(k: f32) -> Point
        ensures { result ≡ thrice k }
    {
        Point { x: k, y: k, z: k }
    }

    // Component by component. It is no operator, since `a * b` of two points could as well mean
    // their dot or their cross product.
    #[tactic(auto, unfolding(crate::specs::Points::product_of))]
    pub fn product(self, b: Point) -> Point
        ensures { result ≡ product_of self b }
    {
        Point {
            x: self.x * b.x,
            y: self.y * b.y,
            z: self.z * b.z,
        }
    }

    // Left to right.
    #[tactic(auto, unfolding(crate::specs::Points::dot_of))]
    pub fn dot(self, b: Point) -> f32
        ensures { result ≡ dot_of self b }
    {
        self.x * b.x + self.y * b.y + self.z * b.z
    }

    // The cross product.
    #[tactic(auto, unfolding(crate::specs::Points::cross_of))]
    pub fn cross(self, b: Point) -> Point
        ensures { result ≡ cross_of self b }
    {
        Point {
            x: self.y * b.z - self.z * b.y,
            y: self.z * b.x - self.x * b.z,
            z: self.x * b.y - self.y * b.x,
        }
    }

    // The root of the dot with itself.
    #[tactic(auto, unfolding(crate::specs::Points::norm_of))]
    pub fn norm(self) -> f32
        ensures { result ≡ norm_of self }
    {
        float32::root(self.dot(self))
    }

    // Each component divided by the norm.
    #[tactic(auto, unfolding(crate::specs::Points::normalised))]
    pub fn normalize(self) -> Point
        ensures { result ≡ normalised self }
    {
        self / self.norm()
    }
}

impl Add for Point {
    type Output = Point;

    ghost add_gives = { λ a b r. r ≡ sum_of a b };

    // Component by component.
    #[tactic(auto, unfolding(crate::specs::Points::sum_of))]
    fn add(self, b: Point) -> Point {
        Point {
            x: self.x + b.x,
            y: self.y + b.y,
            z: self.z + b.z,
        }
    }
}

impl Sub for Point {
    type Output = Point;

    ghost sub_gives = { λ a b r. r ≡ difference_of a b };

    // Component by component.
    #[tactic(auto, unfolding(crate::specs::Points::difference_of))]
    fn sub(self, b: Point) -> Point {
        Point {
            x: self.x - b.x,
            y: self.y - b.y,
            z: self.z - b.z,
        }
    }
}

impl Mul<f32> for Point {
    type Output = Point;

    ghost mul_gives = { λ a k r. r ≡ scaled a k };

    // Each component times k.
    #[tactic(auto, unfolding(crate::specs::Points::scaled))]
    fn mul(self, k: f32) -> Point {
        Point {
            x: self.x * k,
            y: self.y * k,
            z: self.z * k,
        }
    }
}

impl Div<f32> for Point {
    type Output = Point;

    ghost div_gives = { λ a k r. r ≡ quotient_of a k };

    // Each component divided by k.
    #[tactic(auto, unfolding(crate::specs::Points::quotient_of))]
    fn div(self, k: f32) -> Point {
        Point {
            x: self.x / k,
            y: self.y / k,
            z: self.z / k,
        }
    }
}
