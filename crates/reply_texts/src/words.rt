// The words of choices and standings.
ghost use Rattle.std.specs.Prelude.{◌≡◌};
ghost use Rattle.reply_texts.specs.Replies.{choice_name, standing_name};

use office_base::Choice;
use round_options::Standing;

/// The word of a choice.
pub fn choice_name(choice: Choice) -> &'static str
    ensures { result.now ≡ choice_name choice }
{
    match choice {
        Choice::Freeze => "freeze",
        Choice::Float => "float",
        Choice::Slide => "slide",
        Choice::Withdraw => "withdraw",
    }
}

/// The word of a standing.
pub fn standing_name(standing: Standing) -> &'static str
    ensures { result.now ≡ standing_name standing }
{
    match standing {
        Standing::Waiting => "waiting",
        Standing::Offered => "offered",
        Standing::Freeze => "freeze",
        Standing::Float => "float",
        Standing::Slide => "slide",
        Standing::Withdrawn => "withdrawn",
        Standing::NoShow => "noshow",
    }
}
