// The numbers of the choices in the tables.
ghost use Rattle.std.specs.Prelude.{◌≡◌};
ghost use Rattle.keeper_sqlite.specs.Numbers.{choice_number, choice_of};

use office_base::Choice;

pub(crate) fn number_of_choice(choice: Choice) -> u32
    ensures { result ≡ choice_number choice }
{
    match choice {
        Choice::Freeze => 0,
        Choice::Float => 1,
        Choice::Slide => 2,
        Choice::Withdraw => 3,
    }
}

pub(crate) fn choice_of_number(number: u32) -> Option<Choice>
    ensures { result ≡ choice_of number }
{
    match number {
        0 => Some(Choice::Freeze),
        1 => Some(Choice::Float),
        2 => Some(Choice::Slide),
        3 => Some(Choice::Withdraw),
        _ => None,
    }
}
