// Requests that are answered over an office, and why they are not all answered.
ghost use Rattle.std.specs.Prelude.{◌≡◌, ℕ, List};
ghost use Rattle.office_base.specs.Outside.{Rose, Appends};
ghost use Rattle.kept_rows.specs.Tables.{IsTold};
ghost use Rattle.office_moves.specs.History.{IsHistory};
ghost use Rattle.office_moves.specs.Stands.{Stand};
ghost use Rattle.season_commands.specs.Office.{EndsOffice};
ghost use Rattle.season_commands.specs.Outside.{BlamesOffice, EndsWith, outside_of};

use crate::{RunFault, answer_all};
use command_answers::{Status, tell_keeper_fault, tell_no_memory};
use keeper_mem::Keeper;
use office_asks::Request;
use office_base::Sink;
use round_cut::Office;
use std::alloc::Global;

/// Answers the requests over an office, which is in the state that its entries lead to, and returns its keeper.
pub fn run_office<K: Sink, P: Keeper>(
    alloc: Global,
    mut office: Office<P>,
    script: &[Request],
    sink: &mut K,
) -> (Status, P)
    requires history { IsHistory office.season office.entries office.state }
    requires stands { Stand office.season office.state (P.seen office.keeper).tables }
    ensures written { (output : List ℕ) × Appends output (K.written sink.old) (K.written sink.new)
        × EndsOffice office.season office.state
        script.now (P.seen result.1).tables result.0 output }
    ensures told_before { IsTold (P.seen result.1).tables → IsTold (P.seen office.keeper).tables }
    ensures blamed { BlamesOffice result.0 (outside_of K.Sink P.Keeper sink.old office.keeper)
        (outside_of K.Sink P.Keeper sink.new result.1) }
    ensures complete { ¬ Rose (K.faults sink.old) (K.faults sink.new)
        → ¬ Rose (P.seen office.keeper).faults (P.seen result.1).faults
        → EndsWith Status.Ok result.0 }
{
    let status = answer_script(alloc, &mut office, script, sink);
    (status, office.into_keeper())
}

/// Answers the requests over an office, and reports why they are not all answered, if they are not.
fn answer_script<K: Sink, P: Keeper>(
    alloc: Global,
    office: &mut Office<P>,
    script: &[Request],
    sink: &mut K,
) -> Status
    requires history { IsHistory office.old.season office.old.entries office.old.state }
    requires stands { Stand office.old.season office.old.state (P.seen office.old.keeper).tables }
    ensures written { (output : List ℕ) × Appends output (K.written sink.old) (K.written sink.new)
        × EndsOffice office.old.season office.old.state
        script.now (P.seen office.new.keeper).tables result output }
    ensures told_before { IsTold (P.seen office.new.keeper).tables
        → IsTold (P.seen office.old.keeper).tables }
    ensures blamed { BlamesOffice result (outside_of K.Sink P.Keeper sink.old office.old.keeper)
        (outside_of K.Sink P.Keeper sink.new office.new.keeper) }
    ensures complete { ¬ Rose (K.faults sink.old) (K.faults sink.new)
        → ¬ Rose (P.seen office.old.keeper).faults (P.seen office.new.keeper).faults
        → EndsWith Status.Ok result }
{
    match answer_all(alloc, office, script, sink) {
        Ok(()) => Status::Ok,
        Err(RunFault::WriteFault) => Status::WriteFault,
        Err(RunFault::KeeperFault) => tell_keeper_fault(sink),
        Err(RunFault::OutOfMemory) => tell_no_memory(sink),
    }
}
