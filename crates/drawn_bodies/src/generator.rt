ghost use Rattle.std.specs.Prelude.{◌<◌};

// A linear congruential generator of 32 bits, by its state.
#[derive(Clone, Copy, Debug)]
pub struct Generator(pub u32);

impl Generator {
    // Goes on to the next state.
    pub(crate) fn step(&mut self) {
        self.0 = self.0.wrapping_mul(1664525).wrapping_add(1013904223);
    }

    // Draws a number below n, out of the upper half of the state, and goes on to the next state.
    pub(crate) fn below(&mut self, n: u8) -> u8
        requires { 0 < n }
        ensures { result < n }
    {
        let drawn = (self.0 / 65536 % n as u32) as u8;
        self.step();
        drawn
    }
}

// n / 8, exactly.
pub(crate) fn eighths(n: u8) -> f32 {
    n as f32 * 0.125
}
