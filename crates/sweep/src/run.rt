ghost use Rattle.std.specs.Prelude.{◌≡◌, IfNone, IfSome, IsOk, OnOk, OnErr};
ghost use Rattle.std.specs.Io.KnownBytes.{Appends, Keeps};
ghost use Rattle.streams.specs.Filled.{AppendsFront};
ghost use Rattle.ledger.specs.Calls.{cleared_set};
ghost use Rattle.sweep.specs.Set.{held};
ghost use Rattle.sweep.specs.Input.{AfterRecords};
ghost use Rattle.sweep.specs.Known.{AddedAll, UnlessFailed};
ghost use Rattle.sweep.specs.File.{file_bytes};
ghost use Rattle.sweep.specs.Report.{EndsWell};

use crate::input::{Reading, collect};
use crate::output::write_file;
use crate::report::{report_reading, report_writing};
use crate::set::SetBuffers;
use std::io;
use std::io::{Read, Write};

// What became of a run.
#[derive(Clone, Copy, Debug)]
pub(crate) struct Run {
    pub reading: Reading,
    pub writing: io::Result<()>,
}

// Clears the set, adds the body of each record of `input`, and writes the set's file to `output`.
// Says on `errors` what went wrong, and nothing else.
pub(crate) fn sweep<R: Read, W: Write, E: Write>(
    input: &mut R,
    output: &mut W,
    errors: &mut E,
    set: &mut SetBuffers,
) -> Run
    ensures set { AfterRecords result.reading.count (cleared_set (held set.old)) (held set.new) }
    ensures endless { IfNone result.reading.stop (result.reading.count ≡ 18446744073709551615) }
    ensures all { IfSome (R.remaining input.old) (λ bytes. IfSome result.reading.stop (λ why.
        UnlessFailed why (AddedAll bytes (cleared_set (held set.old)) (held set.new)))) }
    ensures whole { let file = file_bytes (held set.new) in
        OnOk result.writing (Appends (W.contents output.old) (W.contents output.new) file) }
    ensures front { let file = file_bytes (held set.new) in
        OnErr result.writing
        (AppendsFront (W.contents output.old) (W.contents output.new) file) }
    ensures quiet { EndsWell result.reading.stop → IsOk result.writing
        → Keeps (E.contents errors.old) (E.contents errors.new) }
{
    let reading = collect(input, set);
    // Where nothing can be said on `errors`, nobody can be told.
    let _ = report_reading(errors, reading);
    let writing = write_file(output, set);
    let _ = report_writing(errors, writing);
    Run { reading, writing }
}
