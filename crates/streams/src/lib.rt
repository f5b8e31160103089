// Reads a stream and writes one: bytes, until a buffer is full or empty, and records. A call that
// a signal interrupts is made again. Where the bytes of a reader or a writer are known, as those
// of memory are, the contracts name them.
#![tactic(auto)]

mod record;

ghost use Rattle.std.specs.Prelude.{◌≡◌, ◌≢◌, ◌≤◌, length, IfOk, IfErr, OnOk, OnErr};
ghost use Rattle.std.specs.IoError.{error_kind};
ghost use Rattle.std.specs.Io.{ReadsAtMost, WritesAtMost};
ghost use Rattle.std.specs.Io.KnownBytes.{Appends, ReadConsumes, WriteAppends};
ghost use Rattle.streams.specs.Again.{MadeAgain};
ghost use Rattle.streams.specs.Filled.{FilledFrom, AppendsFront};

pub use record::{RECORD_BYTES, RECORD_WORDS, Stop, read_record};
use std::io;
use std::io::{Error, ErrorKind, Read, Write};

// What a call comes to that signals interrupt for ever.
fn gave_up() -> Error
    ensures { error_kind result ≢ ErrorKind.Interrupted }
{
    Error::new(ErrorKind::TimedOut, "interrupted 2^64 times")
}

// Makes a call that moves bytes, and again after each interruption. The count ends the loop if the
// interruptions never do.
fn retry<F: FnMut() -> io::Result<usize>>(call: &mut F) -> io::Result<usize>
    requires { F.IsAlwaysCallable call.old }
    ensures calls { MadeAgain F.step call.old result call.new }
    ensures made_again { IfErr result (λ e. error_kind e ≢ ErrorKind.Interrupted) }
{
    for _ in 0..u64::MAX {
        match call() {
            Err(error) if error.kind() == ErrorKind::Interrupted => {}
            result => return result,
        }
    }
    Err(gave_up())
}

// Reads once to the front of `buf`, again after each interruption.
fn read_some<R: Read>(input: &mut R, buf: &mut [u8]) -> io::Result<usize>
    ensures bound { ReadsAtMost result buf.new }
    ensures bytes { ReadConsumes (R.remaining input.old) (R.remaining input.new) result buf.new }
    ensures made_again { IfErr result (λ e. error_kind e ≢ ErrorKind.Interrupted) }
{
    let mut read = || input.read(buf);
    retry(&mut read)
}

// Writes once from the front of `buf`, again after each interruption.
fn write_some<W: Write>(output: &mut W, buf: &[u8]) -> io::Result<usize>
    ensures bound { WritesAtMost result buf.now }
    ensures bytes { WriteAppends (W.contents output.old) (W.contents output.new) result buf.now }
    ensures made_again { IfErr result (λ e. error_kind e ≢ ErrorKind.Interrupted) }
{
    let mut write = || output.write(buf);
    retry(&mut write)
}

// Reads until `buf` is full, the input ends or a read fails. Answers how many bytes were read: all
// of `buf`, or fewer where the input ended. This loop and the next have no range to go over: a
// call moves as many bytes as it likes, and none where the input ends or the output takes no more.
// The library's `read_exact` does not say how many bytes there were, nor its `write_all` which of
// them were written where it fails.
pub fn read_full<R: Read>(input: &mut R, buf: &mut [u8]) -> io::Result<usize>
    ensures count { IfOk result (λ count. count ≤ length buf.old) }
    ensures bytes { FilledFrom (R.remaining input.old) (R.remaining input.new) result buf.new }
{
    let mut done: usize = 0;
    while done < buf.len() {
        let more = read_some(input, &mut buf[done..])?;
        if more == 0 {
            break;
        }
        done += more;
    }
    Ok(done)
}

// Writes all of `buf`. Where a write fails or takes nothing, the front of `buf` may have been
// written, and nothing else.
pub fn write_all<W: Write>(output: &mut W, buf: &[u8]) -> io::Result<()>
    ensures whole { OnOk result (Appends (W.contents output.old) (W.contents output.new) buf.now) }
    ensures front { OnErr result
        (AppendsFront (W.contents output.old) (W.contents output.new) buf.now) }
{
    let mut rest = buf;
    while !rest.is_empty() {
        let taken = write_some(output, rest)?;
        if taken == 0 {
            return Err(Error::new(ErrorKind::WriteZero, "no byte was taken"));
        }
        rest = &rest[taken..];
    }
    Ok(())
}
