// The laws of the cutoffs of lists, over their definitions alone. Each is the contract of a function that does nothing.
ghost use Rattle.list_cutoffs.specs.Laws.{CutoffsExist, OneListOfCutoffs};

/// Published lists have cutoffs.
pub fn cutoffs_exist()
    ensures { CutoffsExist }
{
    cutoff_lines::laws::lines_exist();
}

/// The same lists have the same cutoffs.
pub fn one_list()
    ensures { OneListOfCutoffs }
{
    cutoff_lines::laws::one_lines();
}
