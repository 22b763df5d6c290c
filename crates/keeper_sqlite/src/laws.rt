// The law over the numbers of the tables, as the contract of a function that does nothing.
ghost use Rattle.keeper_sqlite.specs.Numbers.{ChoiceNumbersLaw};

/// Shows that a choice is read back from its number, and from no other number.
pub fn choice_numbers()
    ensures { ChoiceNumbersLaw }
{}
