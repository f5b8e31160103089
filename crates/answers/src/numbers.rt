ghost use Rattle.std.specs.Prelude.{◌≡◌};
ghost use Rattle.answers.specs.Answers.{number_in, answer_of};

use crate::refusal::Refusal;

// The number that C and the programs' output have for an answer: document 01's number of the
// refusal, or 0 where nothing is refused.
pub fn number<T: Copy>(answer: Result<T, Refusal>) -> u32
    ensures { result ≡ number_in (answer_of answer) }
{
    match answer {
        Ok(_) => 0,
        Err(why) => why.into(),
    }
}
