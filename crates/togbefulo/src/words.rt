// What an answer hands over beside its number.
ghost use Rattle.std.specs.Prelude.{◌≡◌, MatchResult};
ghost use Rattle.answers.specs.Answers.{answer_of, number_in};

use answers::{Refusal, number};

// Writes the words of the answer to `out`, unless it is a refusal, and answers its number.
pub(crate) fn put<const N: usize>(answer: Result<[u32; N], Refusal>, out: &mut [u32; N]) -> u32
    ensures number { result ≡ number_in (answer_of answer.entry) }
    ensures out_after { MatchResult answer.entry (λ words. out.new ≡ words)
        (λ _. out.new ≡ out.old) }
{
    if let Ok(words) = &answer {
        *out = *words;
    }
    number(answer)
}
