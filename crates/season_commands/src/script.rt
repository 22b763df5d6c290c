// A script, answered request after request.
ghost use Rattle.std.specs.Prelude.{ℕ, List, IfOk, OnOk, IsErrOf, IsOkUnless, take};
ghost use Rattle.office_base.specs.Outside.{Appends, Fails, Rose};
ghost use Rattle.history_laws.specs.Orderly.{IsOrderly};
ghost use Rattle.office_moves.specs.History.{IsHistory};
ghost use Rattle.office_moves.specs.Moves.{IsMove};
ghost use Rattle.office_moves.specs.Stands.{Stand};
ghost use Rattle.round_cut.specs.Answering.{KeepsOn};
ghost use Rattle.season_commands.specs.Runs.{Accepts, EndsBy};
ghost use Rattle.season_commands.specs.Steps.{Continues, HasAccepted, IsAnswered, IsAnsweredInPart, IsCutOff, IsUnanswered, moment_of};

use crate::fault::RunFault;
use keeper_mem::Keeper;
use office_asks::Request;
use office_base::{Sink, write_whole};
use office_moves::Reply;
use round_cut::{Office, OfficeFault};
use season_facts::says_what_is_sound;
use shown_replies::laws::replies_can_be_shown;
use shown_replies::reply_line;
use std::alloc::Global;

/// Answers the requests one after another, each under the number after the last one.
/// It writes each reply before it handles the next request.
/// The office must be in the state to which its entries lead, and it is so at the end too.
pub fn answer_all<P: Keeper, K: Sink>(
    alloc: Global,
    office: &mut Office<P>,
    script: &[Request],
    sink: &mut K,
) -> Result<(), RunFault>
    requires history { IsHistory office.old.season office.old.entries office.old.state }
    requires stands { Stand office.old.season office.old.state (P.seen office.old.keeper).tables }
    ensures ended { (output : List ℕ) × Appends output (K.written sink.old) (K.written sink.new)
        × EndsBy office.old.season office.old.state script.now result output
        office.new.state (P.seen office.new.keeper).tables }
    ensures entries { (j : ℕ) × Accepts office.old.season office.old.state office.old.entries
        (take j script.now) office.new.state office.new.entries }
    ensures continues { Continues P.seen office.old office.new }
    ensures blamed { Fails (IsErrOf result RunFault.KeeperFault) (P.seen office.old.keeper).faults
        (P.seen office.new.keeper).faults
        × Fails (IsErrOf result RunFault.WriteFault) (K.faults sink.old) (K.faults sink.new) }
    ensures complete { ¬ Rose (P.seen office.old.keeper).faults (P.seen office.new.keeper).faults
        → ¬ Rose (K.faults sink.old) (K.faults sink.new) → IsOkUnless result RunFault.OutOfMemory }
{
    check_order(office);
    'requests: for request in script {
        answer_one(alloc, office, request, sink)?;
    }
    Ok(())
}

/// Shows that all is in order in the state of the office, to which its entries lead. It allocates nothing.
pub(crate) fn check_order<P: Keeper>(office: &Office<P>)
    requires { IsHistory office.now.season office.now.entries office.now.state }
    ensures { IsOrderly office.now.season office.now.state }
{
    history_laws::laws::orderly();
    says_what_is_sound(office.season());
}

/// Answers one request, and writes the reply.
fn answer_one<P: Keeper, K: Sink>(
    alloc: Global,
    office: &mut Office<P>,
    request: &Request,
    sink: &mut K,
) -> Result<(), RunFault>
    requires history { IsHistory office.old.season office.old.entries office.old.state }
    requires stands { Stand office.old.season office.old.state (P.seen office.old.keeper).tables }
    ensures done { OnOk result (IsAnswered office.old.season request.now
        (moment_of P.seen office.old (K.written sink.old))
        (moment_of P.seen office.new (K.written sink.new))) }
    ensures keeper { IsErrOf result RunFault.KeeperFault → IsUnanswered
        (moment_of P.seen office.old (K.written sink.old))
        (moment_of P.seen office.new (K.written sink.new)) }
    ensures memory { IsErrOf result RunFault.OutOfMemory → IsCutOff office.old.season request.now
        (moment_of P.seen office.old (K.written sink.old))
        (moment_of P.seen office.new (K.written sink.new)) }
    ensures write { IsErrOf result RunFault.WriteFault → (n : ℕ)
        × IsAnsweredInPart office.old.season request.now n (moment_of P.seen office.old
        (K.written sink.old)) (moment_of P.seen office.new (K.written sink.new)) }
    ensures orderly { IsOrderly office.new.season office.new.state }
    ensures continues { Continues P.seen office.old office.new }
    ensures blamed { Fails (IsErrOf result RunFault.KeeperFault) (P.seen office.old.keeper).faults
        (P.seen office.new.keeper).faults
        × Fails (IsErrOf result RunFault.WriteFault) (K.faults sink.old) (K.faults sink.new) }
{
    let reply = next_reply(alloc, office, request)?;
    replies_can_be_shown();
    says_what_is_sound(office.season());
    let text = reply_line(alloc, office.book(), &reply)?;
    Ok(write_whole(sink, text.as_slice())?)
}

/// Returns the reply to a request under the number after the last one.
/// If that number would not fit, it reports that memory ran out.
pub(crate) fn next_reply<P: Keeper>(
    alloc: Global,
    office: &mut Office<P>,
    request: &Request,
) -> Result<Reply, OfficeFault>
    requires history { IsHistory office.old.season office.old.entries office.old.state }
    requires stands { Stand office.old.season office.old.state (P.seen office.old.keeper).tables }
    ensures moves { IfOk result (λ reply.
        IsMove office.old.season office.old.state request.now reply office.new.state) }
    ensures accepted { OnOk result (HasAccepted office.old.season office.old.state
        request.now office.old.entries office.new.entries) }
    ensures history { IsHistory office.new.season office.new.entries office.new.state }
    ensures orderly { IsOrderly office.new.season office.new.state }
    ensures stands { Stand office.new.season office.new.state (P.seen office.new.keeper).tables }
    ensures kept { KeepsOn P.seen office.old office.new result }
{
    history_laws::laws::history_grows();
    history_laws::laws::orderly();
    says_what_is_sound(office.season());
    let Some(number) = office.last_number().checked_add(1) else {
        return Err(OfficeFault::OutOfMemory);
    };
    office.handle(alloc, number, request)
}
