ghost use Rattle.std.specs.Prelude.{◌≡◌, ◌<◌, ℕ, get_or};
ghost use Rattle.std.specs.Float.{nan};
ghost use Rattle.float32.specs.Lanes.{sum_after, all_zeros, blocks_finite};
ghost use Rattle.float32.specs.Scan.{all_finite};

use crate::words::is_finite;

// How many floats a block has, and how many sums there are. With 8 sums each addition waits for
// the one before it, and a long slice takes two thirds longer.
const LANES: usize = 16;

// Whether each value is finite. The floats are tried one after another, which serves where they
// are few.
fn is_each_finite(values: &[f32]) -> bool
    ensures { result ≡ all_finite values.now }
{
    values.iter().fold(true, |all, x| all & is_finite(*x))
}

// Adds each float of the block, times 0.0, to the sum of its lane. By index, since no proof knows
// what a loop over `sums.iter_mut().zip(block)` has written.
fn add_block(block: &[f32; LANES], sums: &mut [f32; LANES])
    ensures { (k : ℕ) → k < 16
        → get_or sums.new k nan ≡ sum_after (get_or sums.old k nan) (get_or block.now k nan) }
{
    for k in 0..LANES {
        sums[k] += block[k] * 0.0;
    }
}

// Whether each sum is a zero.
fn are_zeros(sums: &[f32; LANES]) -> bool
    ensures { result ≡ all_zeros sums.now }
{
    sums.iter().fold(true, |all, sum| all & (*sum == 0.0))
}

// Whether each float of the blocks is finite. A finite float times 0.0 is a zero. An infinity or a
// NaN times 0.0 is a NaN, and a sum that a NaN was added to stays a NaN. So a sum is a zero
// exactly if all floats of its lane are finite. It is done by sums because the compiler adds four
// floats in one instruction, but tests the floats of a slice one by one.
fn are_blocks_finite(blocks: &[[f32; LANES]]) -> bool
    ensures { result ≡ blocks_finite blocks.now }
{
    let mut sums = [0.0f32; LANES];
    for block in blocks {
        add_block(block, &mut sums);
    }
    are_zeros(&sums)
}

// Whether every value is finite. No loop stops at the first that is not: each looks at all of its
// floats, and blocks are added up. A slice with no whole block skips the sums, since looking at
// them takes as long as six floats.
pub fn are_finite(values: &[f32]) -> bool
    ensures { result ≡ all_finite values.now }
{
    let (blocks, rest) = values.as_chunks::<LANES>();
    is_each_finite(rest) && (blocks.is_empty() || are_blocks_finite(blocks))
}
