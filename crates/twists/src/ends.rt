// The last frame against the first, where a loop closes: `c0` and `s0` are the cosine and the sine
// of the angle between them, times their lengths.
#[derive(Clone, Copy, Debug)]
pub struct Ends {
    pub c0: f32,
    pub s0: f32,
}
