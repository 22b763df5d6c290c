// The laws of lines, over their definitions alone. Each is the contract of a function that does nothing.
ghost use Rattle.cutoff_lines.specs.Laws.{LinesDecide, LinesExist, OneLines};

/// A person who joins is admitted if and only if their place is within the cutoff that the lines give for their traits.
pub fn lines_decide()
    ensures { LinesDecide }
{
    step_cutoffs::laws::cutoffs_decide();
}

/// A step has a list of few lines that give its cutoffs.
pub fn lines_exist()
    ensures { LinesExist }
{
    step_cutoffs::laws::cutoff_exists();
    step_cutoffs::laws::more_traits_widen();
}

/// No step has two such lists.
pub fn one_lines()
    ensures { OneLines }
{
    step_cutoffs::laws::one_cutoff();
}
