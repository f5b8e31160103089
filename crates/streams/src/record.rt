ghost use Rattle.std.specs.Prelude.{◌≡◌, ◌≤◌, length, take};
ghost use Rattle.std.specs.Io.KnownBytes.{prepend_known};
ghost use Rattle.little_endian.specs.Words.{words_in};
ghost use Rattle.records.specs.Records.{length_named};
ghost use Rattle.streams.specs.Record.{ReadAs, ReadFrom, stop_text};
ghost use Rattle.streams.specs.declared.record.Stop.TheVariants.{Failed};

use crate::read_full;
use little_endian::read_words;
use records::{HEAD_WORDS, MOST_VERTICES, record_length};
use std::fmt;
use std::fmt::{Display, Formatter};
use std::io::{Error, Read};

// The words of the longest record: a head and 512 vertices.
pub const RECORD_WORDS: usize = HEAD_WORDS + 3 * MOST_VERTICES;

// The bytes of the longest record.
pub const RECORD_BYTES: usize = 4 * RECORD_WORDS;

// Why the reading of records stops. The text, `Error` and `From` are written by hand, since what
// `thiserror` derives has no contract: the program `sweep` needs the text and the error.
#[derive(Clone, Copy, Debug)]
pub enum Stop {
    // The input ends where a record would begin.
    End,
    // The input ends inside a record.
    Short,
    // A record names more than 512 curve vertices.
    TooLong,
    // A read failed, and why.
    Failed(Error),
}

// What is wrong with the record before which the reading stops.
impl Display for Stop {
    ghost output = { stop_text };

    fn fmt<W: fmt::Write>(&self, f: &mut Formatter<W>) -> fmt::Result {
        match self {
            Stop::End => f.write_str("lies past the end of the input"),
            Stop::Short => f.write_str("is cut short by the end of the input"),
            Stop::TooLong => f.write_str("names more than 512 curve vertices"),
            Stop::Failed(error) => write!(f, "could not be read: {error}"),
        }
    }
}

impl std::error::Error for Stop {}

impl From<Error> for Stop {
    ghost from_gives = { λ cause stop. stop ≡ Failed cause };

    fn from(cause: Error) -> Stop {
        Stop::Failed(cause)
    }
}

// Reads the coordinates of a record of `count` words, whose head `bytes` begins with, and puts the
// whole record at the front of `words`.
fn read_curve<R: Read>(
    input: &mut R,
    count: usize,
    bytes: &mut [u8; RECORD_BYTES],
    words: &mut [u32; RECORD_WORDS],
) -> Result<usize, Stop>
    requires has_head { 7 ≤ count }
    requires fits { count ≤ 1543 }
    requires named { count ≡ length_named (words_in (take 28 bytes.old)) }
    ensures alone { ReadAs result words.new }
    ensures bytes { let head = take 28 bytes.old in
        ReadFrom (prepend_known head (R.remaining input.old)) (R.remaining input.new)
        result words.new }
{
    let head = 4 * HEAD_WORDS;
    let end = 4 * count;
    let read = read_full(input, &mut bytes[head..end])?;
    if read < end - head {
        return Err(Stop::Short);
    }
    read_words(&bytes[..end], words);
    Ok(count)
}

// Reads the next record of `input` to the front of `words`, by way of `bytes`. Both have room for
// the longest record. Answers how many words it has.
pub fn read_record<R: Read>(
    input: &mut R,
    bytes: &mut [u8; RECORD_BYTES],
    words: &mut [u32; RECORD_WORDS],
) -> Result<usize, Stop>
    ensures alone { ReadAs result words.new }
    ensures bytes { ReadFrom (R.remaining input.old) (R.remaining input.new) result words.new }
{
    let head = 4 * HEAD_WORDS;
    let read = read_full(input, &mut bytes[..head])?;
    if read == 0 {
        return Err(Stop::End);
    }
    if read < head {
        return Err(Stop::Short);
    }
    read_words(&bytes[..head], words);
    let count = record_length(&words[..HEAD_WORDS]).ok_or(Stop::TooLong)?;
    read_curve(input, count, bytes, words)
}
