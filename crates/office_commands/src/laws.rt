// What holds of the inputs of commands, for every reader, and of the programs that run a part of the commands.
ghost use Rattle.std.specs.Prelude.{ℕ, List};
ghost use Rattle.office_base.specs.Visible.{Streams};
ghost use Rattle.command_answers.specs.Answers.{HaveOneAnswer};
ghost use Rattle.command_answers.specs.declared.status.Status.{Status as AnyStatus};
ghost use Rattle.office_commands.specs.FirstLook.{IsTheOffice};
ghost use Rattle.season_commands.specs.Check.{check_answers};
ghost use Rattle.step_command.specs.Step.{step_answers};

/// Shows that bytes are an input of `step` without faults or have a fault, and never both.
/// At most one text answers them. The same holds for `check`.
pub fn one_answer()
    ensures step { (bytes : List ℕ) → HaveOneAnswer step_answers bytes }
    ensures check { (bytes : List ℕ) → HaveOneAnswer check_answers bytes }
{
    step_command::laws::one_answer();
    season_commands::laws::one_answer();
}

/// Shows that a first look is the office: what the small programs do with words, `allocate` does with them over a new
/// keeper in memory and without doors, as far as its clause says it.
pub fn a_first_look_is_the_office()
    ensures { (words : List (List ℕ)) (old new : Streams) (status : AnyStatus)
        → IsTheOffice words old new status }
{
    command_words::laws::one_spelling();
}
