// A script, answered request after request: no reply is written, and answers are counted.
ghost use Rattle.std.specs.Prelude.{◌≡◌, ◌<◌, ◌+◌, ◌^◌, cond, IfOk, OnErr, IsErrOf};
ghost use Rattle.office_base.specs.Outside.{Fails};
ghost use Rattle.office_moves.specs.History.{IsHistory};
ghost use Rattle.office_moves.specs.Stands.{Stand};
ghost use Rattle.season_commands.specs.Steps.{Continues};
ghost use Rattle.season_commands.specs.Tally.{CountsAll, StopsBefore, is_receipt, is_refused_answer};

use crate::script::{check_order, next_reply};
use keeper_mem::Keeper;
use office_asks::{Ask, Request};
use office_moves::Reply;
use round_cut::{Office, OfficeFault};
use std::alloc::Global;

/// How many answers were noted, and how many were refused.
#[derive(Clone, Copy, PartialEq, Eq)]
pub struct Tally {
    pub noted: usize,
    pub refused: usize,
}

/// Answers the requests one after another, each under the number after the last one.
/// It counts the answers that are noted and those that are refused, and writes no reply.
/// The office must be in the state to which its entries lead, and it is so at the end too.
/// It returns `KeeperFault` if the keeper failed at a request, and `OutOfMemory` if memory ran out for one.
/// In both cases the requests before it are answered, and that request is not.
pub fn count_all<P: Keeper>(
    alloc: Global,
    office: &mut Office<P>,
    script: &[Request],
) -> Result<Tally, OfficeFault>
    requires history { IsHistory office.old.season office.old.entries office.old.state }
    requires stands { Stand office.old.season office.old.state (P.seen office.old.keeper).tables }
    ensures counted { IfOk result (CountsAll office.old.season office.old.state
        script.now office.new.state (P.seen office.new.keeper).tables) }
    ensures stopped { OnErr result (StopsBefore office.old.season office.old.state
        script.now office.new.state (P.seen office.new.keeper).tables) }
    ensures continues { Continues P.seen office.old office.new }
    ensures blamed { Fails (IsErrOf result OfficeFault.KeeperFault)
        (P.seen office.old.keeper).faults (P.seen office.new.keeper).faults }
{
    check_order(office);
    let mut tally = Tally {
        noted: 0,
        refused: 0,
    };
    'requests: for request in script {
        match next_reply(alloc, office, request) {
            Ok(reply) => tally = tally.with(request, &reply),
            Err(fault) => return Err(fault),
        }
    }
    Ok(tally)
}

impl Tally {
    /// Returns the tally with one more request, and its reply.
    fn with(self, request: &Request, reply: &Reply) -> Tally
        requires noted { self.noted + 1 < 2 ^ 64 }
        requires refused { self.refused + 1 < 2 ^ 64 }
        ensures noted { result.noted ≡ self.noted + cond (is_receipt reply.now) 1 0 }
        ensures refused { result.refused
            ≡ self.refused + cond (is_refused_answer request.now reply.now) 1 0 }
    {
        match reply {
            Reply::Noted { .. } => Tally {
                noted: self.noted + 1,
                refused: self.refused,
            },
            Reply::Refused(_) => match request.ask {
                Ask::Answer { .. } => Tally {
                    noted: self.noted,
                    refused: self.refused + 1,
                },
                _ => self,
            },
            _ => self,
        }
    }
}
