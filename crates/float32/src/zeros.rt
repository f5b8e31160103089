ghost use Rattle.std.specs.Prelude.{◌≡◌, length};
ghost use Rattle.float32.specs.Zeros.{zeros};

// Sets every float to +0.
pub fn fill_zeros(out: &mut [f32])
    ensures { out.new ≡ zeros (length out.old) }
{
    out.fill(0.0);
}
