// The command `step` by its word.
ghost use Rattle.std.specs.Prelude.{◌≡◌, ◌≢◌, ◌↔◌, [], ◌∷◌, codes, true};
ghost use Rattle.office_base.specs.Visible.{streams_of};
ghost use Rattle.command_answers.specs.Ends.{AnswersText, RefusesUsage};
ghost use Rattle.step_command.specs.Step.{step_answers};

use command_answers::{Status, finish, tell_usage};
use office_base::{Sink, Source, Words};
use std::alloc::Global;
use step_command::laws::one_answer;
use step_command::step_answer;

/// Runs `step`, from the bytes of the source to the bytes of the sink, if this is the only word.
/// Other words are refused, and then nothing is read.
pub fn first_look<S: Source, K: Sink>(
    alloc: Global,
    words: &Words,
    source: &mut S,
    sink: &mut K,
) -> Status
    ensures step { words.now ≡ codes "step" ∷ [] → AnswersText step_answers
        (streams_of S.Source K.Sink source.old sink.old)
        (streams_of S.Source K.Sink source.new sink.new) result }
    ensures usage { words.now ≢ codes "step" ∷ [] → RefusesUsage
        (streams_of S.Source K.Sink source.old sink.old)
        (streams_of S.Source K.Sink source.new sink.new) result }
{
    one_answer();
    if asks_for_a_step(words) {
        finish(sink, step_answer(alloc, source))
    } else {
        tell_usage(sink)
    }
}

/// Returns whether the words are `step` alone.
#[tactic(auto, using(crate::proofs::OneWord::one_word))]
fn asks_for_a_step(words: &Words) -> bool
    ensures { result ≡ true ↔ words.now ≡ codes "step" ∷ [] }
{
    let Some(word) = words.word(0) else {
        return false;
    };
    match word {
        "step" => words.len() == 1,
        _ => false,
    }
}
