// 32-bit words as bytes, the lowest byte first, and back. Both functions answer by a bool whether
// `out` was long enough. A caller whose `out` is always long enough ignores the bool; a Result
// would make it handle an error that never comes. Both loops go by their index, since a proof
// knows nothing of elements that are written through a `zip`.
#![tactic(auto)]

ghost use Rattle.std.specs.Prelude.{◌≡◌, ◌/◌, leb, length};
ghost use Rattle.laws.specs.Overwrite.{placed};
ghost use Rattle.little_endian.specs.Words.{words_in, bytes_in};

// Writes the whole words of `bytes` to the front of `out`; where it is too short, it answers false
// and writes nothing.
#[tactic(auto, using(laws::proofs::Overwrite::unwritten))]
pub fn read_words(bytes: &[u8], out: &mut [u32]) -> bool
    ensures fits { result ≡ leb (length bytes.now / 4) (length out.old) }
    ensures written { out.new ≡ placed result (words_in bytes.now) out.old }
{
    let (chunks, _) = bytes.as_chunks::<4>();
    if chunks.len() > out.len() {
        return false;
    }
    for (i, chunk) in chunks.iter().enumerate() {
        out[i] = u32::from_le_bytes(*chunk);
    }
    true
}

// Writes the words' bytes to the front of `out`; where it is too short, it answers false and
// writes nothing.
#[tactic(auto, using(laws::proofs::Overwrite::unwritten))]
pub fn write_words(words: &[u32], out: &mut [u8]) -> bool
    ensures fits { result ≡ leb (length words.now) (length out.old / 4) }
    ensures written { out.new ≡ placed result (bytes_in words.now) out.old }
{
    if words.len() > out.len() / 4 {
        return false;
    }
    for (i, word) in words.iter().enumerate() {
        let at = 4 * i;
        out[at..at + 4].copy_from_slice(&word.to_le_bytes());
    }
    true
}
