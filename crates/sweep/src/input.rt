ghost use Rattle.std.specs.Prelude.{◌≡◌, ◌↔◌, length, IsNone, IfSome};
ghost use Rattle.ledger.specs.Calls.{additions, cleared_set};
ghost use Rattle.records.specs.Records.{record_words, first_addition};
ghost use Rattle.sweep.specs.Set.{held};
ghost use Rattle.sweep.specs.Input.{AfterRecords};
ghost use Rattle.sweep.specs.Known.{AddedFrom, AddedAll, UnlessFailed};

use crate::set::SetBuffers;
use records::add_first;
use std::io::Read;
use streams::{RECORD_BYTES, RECORD_WORDS, Stop, read_record};

// What the reading of records came to.
#[derive(Clone, Copy, Debug)]
pub(crate) struct Reading {
    // How many records were added.
    pub count: u64,
    // Why there are no more. None if the input went on after as many as can be counted.
    pub stop: Option<Stop>,
    ghost endless: { IsNone stop ↔ (count ≡ 18446744073709551615) },
}

// Adds the body of the one record that `words` is.
fn add_record(words: &[u32], set: &mut SetBuffers)
    requires { length words.now ≡ record_words words.now }
    ensures { held set.new ≡ (additions (first_addition words.now) (held set.old)).left }
{
    add_first(words, &mut set.table, &mut set.vertices, &mut set.triangles);
}

// Adds the body of each record of `input`. The count ends the loop if the input never does.
fn add_records<R: Read>(input: &mut R, set: &mut SetBuffers) -> Reading
    ensures after { AfterRecords result.count (held set.old) (held set.new) }
    ensures front { IfSome (R.remaining input.old) (λ bytes.
        AddedFrom bytes result.stop result.count (held set.old) (held set.new)) }
{
    let mut bytes = [0u8; RECORD_BYTES];
    let mut words = [0u32; RECORD_WORDS];
    for count in 0..u64::MAX {
        match read_record(input, &mut bytes, &mut words) {
            Ok(end) => add_record(&words[..end], set),
            Err(why) => {
                return Reading {
                    count,
                    stop: Some(why),
                };
            }
        }
    }
    Reading {
        count: u64::MAX,
        stop: None,
    }
}

// Clears the set and adds the body of each record of `input`.
pub(crate) fn collect<R: Read>(input: &mut R, set: &mut SetBuffers) -> Reading
    ensures after { AfterRecords result.count (cleared_set (held set.old)) (held set.new) }
    ensures front { IfSome (R.remaining input.old) (λ bytes.
        AddedFrom bytes result.stop result.count (cleared_set (held set.old)) (held set.new)) }
    ensures all { IfSome (R.remaining input.old) (λ bytes. IfSome result.stop (λ why.
        UnlessFailed why (AddedAll bytes (cleared_set (held set.old)) (held set.new)))) }
{
    // The table has a word, so that it is not refused.
    let _ = shared_set::clear(&mut set.table);
    add_records(input, set)
}
