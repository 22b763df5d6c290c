// What a session puts its asks to.
ghost use Rattle.std.specs.Prelude.{◌≡◌, ◌+◌, ◌≤◌, ℕ, List, Ok, Option, Result, option_copied, true};
ghost use Rattle.std.specs.Borrow.{GName};
ghost use Rattle.office_asks.specs.declared.ask.Ask.{Ask as AnyAsk};
ghost use Rattle.http_sessions.specs.Replies.{is_reply_status};
ghost use Rattle.http_sessions.specs.declared.counter.Answered.{Answered as AnyAnswered};
ghost use Rattle.http_wire.specs.declared.faults.Fault.{Fault as AnyFault};

use http::StatusCode;
use http_wire::Fault;
use office_asks::Ask;
use office_base::{OutOfMemory, Text};
use std::alloc::Global;

/// The status of a reply, and its body, for which memory may have run out. What was asked is done either way.
#[derive(Drop)]
pub struct Answered {
    pub status: StatusCode,
    pub body: Result<Text, OutOfMemory>,
}

/// What asks are put to.
pub trait Counter {
    /// How many asks are left.
    ghost asks_left: { Self → ℕ };

    /// The name of the reference that it holds, which no call changes.
    ghost lender: { Self → GName };

    /// The counter before, a token, what is asked with it, the answer, and the counter after.
    ghost answers: { Self → Option (List ℕ) → AnyAsk → Result AnyAnswered AnyFault → Self → Type 0 };

    /// Puts an ask with its token, and lowers the number of asks left by at most one.
    /// An `Err` says why there is no answer.
    fn ask(&mut self, alloc: Global, token: Option<&[u8]>, ask: &Ask) -> Result<Answered, Fault>
        requires { 1 ≤ asks_left self.old }
        ensures answer { answers self.old (option_copied token.entry) ask.now result self.new }
        ensures left { asks_left self.old ≤ asks_left self.new + 1 }
        ensures same { lender self.new ≡ lender self.old };

    /// The status of an answer is one that replies have, so never 503 or 507: these say that there is no answer,
    /// or no memory for its body.
    ghost replied: { (before : Self) (token : Option (List ℕ)) (ask : AnyAsk) (answered : AnyAnswered) (after : Self)
        → answers before token ask (Ok answered) after → is_reply_status answered.status ≡ true };
}
