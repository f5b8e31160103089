ghost use Rattle.std.specs.Prelude.{◌≡◌};
ghost use Rattle.records.specs.Records.{unless_zero, length_named, record_words, described_in};

use descriptions::{Description, Sizes, of_kind};
use float32::from_word;

// How many words a record has before its coordinates.
pub const HEAD_WORDS: usize = 7;

// The word of a record that says how many vertices its curve has.
const VERTICES_AT: usize = 6;

// The most vertices that a record's curve may have.
pub const MOST_VERTICES: usize = 512;

// The length of the record that begins with `head`, unless the head is too short or names too many
// vertices.
pub fn record_length(head: &[u32]) -> Option<usize>
    ensures { result ≡ unless_zero (length_named head.now) }
{
    let vertices = *head.get(VERTICES_AT)? as usize;
    (vertices <= MOST_VERTICES).then_some(HEAD_WORDS + 3 * vertices)
}

// The length of the record that `words` begins with, unless it is cut short or names too many
// vertices.
pub fn record_words(words: &[u32]) -> Option<usize>
    ensures { result ≡ unless_zero (record_words words.now) }
{
    let count = record_length(words)?;
    (count <= words.len()).then_some(count)
}

// What the head of a record describes, if its kind is known.
pub(crate) fn describe(head: &[u32; HEAD_WORDS]) -> Option<Description>
    ensures { result ≡ described_in head.now }
{
    let [kind, divisions, steps, centred, size, length, _] = *head;
    of_kind(
        kind,
        Sizes {
            divisions,
            steps,
            centred: centred != 0,
            size: from_word(size),
            length: from_word(length),
        },
    )
}
