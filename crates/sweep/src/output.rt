ghost use Rattle.std.specs.Prelude.{◌≡◌, min, length, OnOk, OnErr};
ghost use Rattle.std.specs.Io.KnownBytes.{Appends};
ghost use Rattle.streams.specs.Filled.{AppendsFront};
ghost use Rattle.laws.specs.Overwrite.{overwrite};
ghost use Rattle.sweep.specs.Set.{held};
ghost use Rattle.sweep.specs.File.{file_words, file_bytes};

use crate::set::{ELEMENTS, SetBuffers, TABLE};
use little_endian::write_words;
use set_file::file_word;
use std::io;
use std::io::Write;
use streams::write_all;

// The words of the longest file: its head of four words, the 64 entries, which are a full table
// without its word 0, and both buffers full.
const WORDS: usize = 4 + (TABLE - 1) + 2 * ELEMENTS;

const BYTES: usize = 4 * WORDS;

// Writes the file's words to the front of `words`, as many as fit, and answers how many these are.
// The loop goes by place, since `file_word` is asked by it.
fn fill_file(set: &SetBuffers, words: &mut [u32]) -> usize
    ensures count { result ≡ min (length (file_words (held set.now))) (length words.old) }
    ensures written { words.new ≡ overwrite 0 (file_words (held set.now)) words.old }
{
    for i in 0..words.len() {
        match file_word(&set.table, &set.vertices, &set.triangles, i) {
            Ok(word) => words[i] = word,
            // The file ends before this place.
            Err(_) => return i,
        }
    }
    words.len()
}

// Writes all of `bytes`, and has no byte of them wait in a buffer. What fails leaves their front.
fn send<W: Write>(output: &mut W, bytes: &[u8]) -> io::Result<()>
    ensures whole { OnOk result
        (Appends (W.contents output.old) (W.contents output.new) bytes.now) }
    ensures front { OnErr result
        (AppendsFront (W.contents output.old) (W.contents output.new) bytes.now) }
{
    write_all(output, bytes)?;
    output.flush()
}

// Writes the set's file to `output`, whole and nothing else; what fails leaves its front.
pub(crate) fn write_file<W: Write>(output: &mut W, set: &SetBuffers) -> io::Result<()>
    ensures whole { let file = file_bytes (held set.now) in
        OnOk result (Appends (W.contents output.old) (W.contents output.new) file) }
    ensures front { let file = file_bytes (held set.now) in
        OnErr result (AppendsFront (W.contents output.old) (W.contents output.new) file) }
{
    let mut words = [0u32; WORDS];
    let mut bytes = [0u8; BYTES];
    let count = fill_file(set, &mut words);
    write_words(&words[..count], &mut bytes);
    let end = 4 * count;
    send(output, &bytes[..end])
}
