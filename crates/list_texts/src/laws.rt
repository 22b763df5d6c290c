// That a list that is published is read back as it was written.
ghost use Rattle.list_texts.specs.Laws.{ListsAreOne, ListsAreRead, ListsAreTold};

/// States that a text can spell a list of distinct persons of the register whose pairs are in their order, as those
/// of a certificate are.
pub fn lists_are_told()
    ensures { ListsAreTold }
{}

/// States that `read_list` takes the text of a programme's list, with this programme, if a text can spell its lists.
pub fn lists_are_read()
    ensures { ListsAreRead }
{}

/// States that a text is that of one list alone: so what is read is what was written.
pub fn lists_are_one()
    ensures { ListsAreOne }
{}
