// The law of spellings. It is the contract of a function that does nothing.
ghost use Rattle.std.specs.Prelude.{◌≡◌, ℕ, List};
ghost use Rattle.command_words.specs.Words.{Spell};
ghost use Rattle.command_words.specs.declared.words.Command.{Command as AnyCommand};

/// Words spell at most one command.
pub fn one_spelling()
    ensures { (words : List (List ℕ)) (command other : AnyCommand)
        → Spell words command → Spell words other → command ≡ other }
{
    office_text::laws::numbers_are_inverse();
}
