// Comparisons, word by word.
ghost use Rattle.std.specs.Prelude.{◌≡◌, length};

use crate::markers::Pattern;
use crate::tally::Tally;

// Whether `word` is `alone` with `shift` added, where the sum is not cut to 32 bits.
fn is_shifted(alone: u32, shift: u32, word: u32) -> bool {
    alone.checked_add(shift) == Some(word)
}

// Compares a body's words with those that it has alone, `shift` added to each.
pub(crate) fn compare_words(alone: &[u32], shift: u32, set: &[u32]) -> Tally
    requires { length alone.now ≡ length set.now }
{
    let pairs = alone.iter().zip(set);
    let differing = pairs.filter(|(own, placed)| !is_shifted(**own, shift, **placed));
    Tally {
        bodies: alone.len() as u64,
        past: 0,
        differing: differing.count() as u64,
    }
}

// Compares the words from place `end` on, where the set ends, with the buffer's pattern.
pub(crate) fn compare_past(end: usize, pattern: Pattern, words: &[u32]) -> Tally {
    let past = words.iter().enumerate().skip(end);
    let differing = past.filter(|(place, word)| **word != pattern.word(*place));
    Tally {
        bodies: 0,
        past: words.len().saturating_sub(end) as u64,
        differing: differing.count() as u64,
    }
}

// Compares words of which one is wrong, and a pattern of which one is: two differences. A
// comparison that finds no difference anywhere shows here.
pub(crate) fn compare_wrong() -> Tally {
    compare_words(&[1, 2, 3], 5, &[6, 7, 9]) + compare_past(1, Pattern(7), &[0, 8, 10])
}
