ghost use Rattle.std.specs.Prelude.{length};
ghost use Rattle.std.specs.Iterator.{at_most};

use records::record_words;

// A step: how many elements of each buffer are lent, a place of the table and the word that is
// written there first, and the record whose body is then added.
#[derive(Clone, Copy, Debug)]
pub(crate) struct Step<'a> {
    pub entries: u32,
    pub coordinates: u32,
    pub indices: u32,
    pub place: u32,
    pub word: u32,
    pub record: &'a [u32],
}

// The steps that a list of words is made of, up to the first words that are no step.
#[derive(Clone, Copy, Debug)]
pub(crate) struct Steps<'a>(pub &'a [u32]);

impl<'a> Iterator for Steps<'a> {
    type Item = Step<'a>;

    ghost remaining = { λ steps. at_most (length steps.0.now) };

    fn next(&mut self) -> Option<Step<'a>> {
        let (head, rest) = self.0.split_first_chunk::<5>()?;
        let (record, rest) = rest.split_at_checked(record_words(rest)?)?;
        self.0 = rest;
        let [entries, coordinates, indices, place, word] = *head;
        Some(Step {
            entries,
            coordinates,
            indices,
            place,
            word,
            record,
        })
    }
}
