ghost use Rattle.std.specs.Prelude.{◌≡◌, take, length};
ghost use Rattle.laws.specs.Overwrite.{overwrite};
ghost use Rattle.laws.specs.Blocks.{blocks};
ghost use Rattle.surface.specs.Raise.{raised, copy_of, RaiseFits, RepeatFits};

// Copies numbers to the front of `to`, with `rise` added to each. The loop is simple enough for
// the compiler to add several numbers at a time.
#[tactic(auto, using(laws::proofs::Overwrite::unwritten))]
fn copy_raised(from: &[u32], to: &mut [u32], rise: u32)
    requires { RaiseFits rise from.now (length to.old) }
    ensures { to.new ≡ overwrite 0 (raised rise from.now) to.old }
{
    for k in 0..from.len() {
        to[k] = rise + from[k];
    }
}

// Fills the front of `out` with `times` copies, of which the first `size` numbers are the first.
// Each copy is the one before it, with `rise` added to its numbers. Each turn copies all the
// copies that there are, since a few long copies take less time than many short ones. Their number
// doubles, so that no range counts the turns.
pub(crate) fn repeat_raised(out: &mut [u32], size: usize, times: u32, rise: u32)
    requires { RepeatFits size times rise out.old }
    ensures { let first = take size out.old in
        out.new ≡ overwrite 0 (blocks times (copy_of rise first)) out.old }
{
    let mut done: u32 = 1;
    while done < times {
        let count = done.min(times - done);
        let (made, rest) = out.split_at_mut(done as usize * size);
        copy_raised(&made[..count as usize * size], rest, done * rise);
        done += count;
    }
}
