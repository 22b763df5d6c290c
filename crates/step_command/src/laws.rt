// What holds of sheets and of their answers, for every reader.
ghost use Rattle.std.specs.Prelude.{ℕ, List};
ghost use Rattle.office_base.specs.StepChoice.{IsStep};
ghost use Rattle.office_base.specs.declared.step.Step.{Step as AnyStep};
ghost use Rattle.step_command.specs.Sheet.{HaveOneReading, SheetGives};
ghost use Rattle.command_answers.specs.Answers.{HaveOneAnswer};
ghost use Rattle.step_command.specs.Step.{step_answers};

/// Bytes give one step or have one first fault, and never both.
pub fn one_reading()
    ensures { (bytes : List ℕ) → HaveOneReading bytes }
{}

/// Every sheet without faults gives a sound step.
pub fn sound_steps()
    ensures { (bytes : List ℕ) (step : AnyStep) → SheetGives bytes step → IsStep step }
{}

/// Shows that bytes are a step sheet without faults or have a fault, and never both.
/// At most one text answers them.
pub fn one_answer()
    ensures { (bytes : List ℕ) → HaveOneAnswer step_answers bytes }
{
    one_reading();
    sound_steps();
    merit_choice::laws::one_choice();
    slot_cert::laws::one_certificate();
}
