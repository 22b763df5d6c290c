// That rounds and final admissions are read back as they were written.
ghost use Rattle.publish.specs.Laws.{FinalsAreOne, FinalsAreRead, RoundsAreOne, RoundsAreRead};

/// States that the text of a round is one that `read_round` takes, with the rows of its seats.
pub fn rounds_are_read()
    ensures { RoundsAreRead }
{}

/// States that the text of final admissions is one that `read_final` takes, with these admissions.
pub fn finals_are_read()
    ensures { FinalsAreRead }
{}

/// States that a text is that of one round alone: so what is read is what was written.
pub fn rounds_are_one()
    ensures { RoundsAreOne }
{}

/// States that a text is that of one list of final admissions alone: so what is read is what was written.
pub fn finals_are_one()
    ensures { FinalsAreOne }
{}
