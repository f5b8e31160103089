ghost use Rattle.std.specs.Prelude.{◌≡◌, ◌+◌, IfSome, IsOk, OnOk, codes};
ghost use Rattle.std.specs.Io.KnownBytes.{Appends, Keeps};
ghost use Rattle.sweep.specs.Report.{EndsWell, fault_line};

use crate::input::Reading;
use std::fmt::{Display, Formatter, InlineText};
use std::io::{Error, Write};
use std::{fmt, io};
use streams::Stop;

// The bytes of the longest text of an error that is written whole.
const LONGEST_TEXT: usize = 320;

// The system's words for an error, without its number.
#[derive(Clone, Copy, Debug)]
struct Words(Error);

impl Display for Words {
    fn fmt<W: fmt::Write>(&self, f: &mut Formatter<W>) -> fmt::Result {
        let text = InlineText::<LONGEST_TEXT>::of(self.0);
        let text = text.as_str();
        match text.split_once(" (os error ") {
            Some((words, _)) => f.write_str(words),
            None => f.write_str(text),
        }
    }
}

// Writes a line to `errors`: which record is at fault, by its number, what is wrong with it, and
// what is kept.
fn say<E: Write, F: Display + Drop>(errors: &mut E, number: u64, fault: F) -> io::Result<()>
    ensures { OnOk result (IfSome (F.output fault) (λ text.
        Appends (E.contents errors.old) (E.contents errors.new) (fault_line number text))) }
{
    writeln!(
        errors,
        "sweep: record {number} {fault}; the set has only the records before it"
    )
}

// Writes a line to `errors`: what failed, and the system's words for it.
fn say_failure<E: Write>(errors: &mut E, what: &str, error: Error) -> io::Result<()> {
    let words = Words(error);
    writeln!(errors, "sweep: {what}: {words}")
}

// Says on `errors` why no more records were added. If the input ended after the last record, it
// says nothing. Records are counted from 1.
pub(crate) fn report_reading<E: Write>(errors: &mut E, reading: Reading) -> io::Result<()>
    ensures quiet { EndsWell reading.stop
        → Keeps (E.contents errors.old) (E.contents errors.new) }
    ensures short { reading.stop ≡ Some Stop.Short
        → OnOk result (Appends (E.contents errors.old) (E.contents errors.new)
        (fault_line (reading.count + 1) (codes "is cut short by the end of the input"))) }
    ensures too_long { reading.stop ≡ Some Stop.TooLong
        → OnOk result (Appends (E.contents errors.old) (E.contents errors.new)
        (fault_line (reading.count + 1) (codes "names more than 512 curve vertices"))) }
{
    match reading.stop {
        None | Some(Stop::End) => Ok(()),
        Some(Stop::Failed(error)) => {
            let what = "standard input could not be read; \
                the set has only the records before that";
            say_failure(errors, what, error)
        }
        Some(fault) => say(errors, reading.count + 1, fault),
    }
}

// Says on `errors` that the set was not written, if it was not. By a match: `or_else` does not say
// that `errors` is as it was where its closure is not called.
pub(crate) fn report_writing<E: Write>(errors: &mut E, writing: io::Result<()>) -> io::Result<()>
    ensures { IsOk writing → Keeps (E.contents errors.old) (E.contents errors.new) }
{
    match writing {
        Ok(()) => Ok(()),
        Err(error) => {
            let what = "the set could not be written whole; what was written is not a set";
            say_failure(errors, what, error)
        }
    }
}
