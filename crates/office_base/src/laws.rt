// Laws of the words of the office: each is the contract of a function that does nothing.
ghost use Rattle.office_base.specs.Laws.{SeatKindNumbersLaw, StepNumbersLaw};

/// Shows that a step is read back from its number, and from no other number.
pub fn step_numbers()
    ensures { StepNumbersLaw }
{}

/// Shows that a kind of seat is read back from its number, and from no other number.
pub fn seat_kind_numbers()
    ensures { SeatKindNumbersLaw }
{}
