// What holds of the requests that `resume` reads. It is the contract of a function that does nothing.
ghost use Rattle.std.specs.Prelude.{ℕ, List};
ghost use Rattle.command_answers.specs.Answers.{HaveOneAnswer};
ghost use Rattle.resume_command.specs.Resume.{script_answers};

/// Shows that bytes are requests without faults or have a fault, and never both.
/// At most one line reports that fault.
pub fn one_script_answer()
    ensures { (bytes : List ℕ) → HaveOneAnswer script_answers bytes }
{}
