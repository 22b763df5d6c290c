// The command `resume`: an office resumes from what the keeper holds. Then the requests that the source gives are read,
// and answered one after another.
ghost use Rattle.std.specs.Prelude.{◌≡◌, ◌≢◌, ◌≤◌, ◌⊎◌, ℕ, List, IfOk, IfErr, OnOk, IsErrOf};
ghost use Rattle.office_base.specs.Outside.{Rose, IsAtEnd, Appends};
ghost use Rattle.kept_rows.specs.Tables.{IsTold, Tables, still};
ghost use Rattle.office_moves.specs.History.{IsHistory};
ghost use Rattle.office_moves.specs.Stands.{Stand};
ghost use Rattle.replays.specs.Resume.{GoesOn, IsUnresumed};
ghost use Rattle.command_answers.specs.Answers.{IsFailureOf, Tells};
ghost use Rattle.command_answers.specs.Writes.{IsTextOut, Writes as WritesText};
ghost use Rattle.office_base.specs.Visible.{source_of};
ghost use Rattle.season_commands.specs.Outside.{BlamesOffice, BlamesSource, EndsWith, Outputs, outside_of};
ghost use Rattle.resume_command.specs.Resume.{AnswersAfter, AreLeftRequests, EndsAsked, EndsResume, IsFaultyScript, IsScript, IsUnresumedText, JudgesRecords, ReportsUnresumed, TellsNoOffice, made_status, made_text, script_answers, unresumed_status};

use crate::stray::{differs_text, stray_text};
use command_answers::{
    Failure, Status, tell_failure, tell_keeper_fault, tell_no_memory, write_answer,
};
use keeper_mem::Keeper;
use office_base::{OutOfMemory, Sink, Source, Text};
use replays::laws::one_end;
use replays::{Unresumed, resume_or_season};
use request_rows::Script;
use round_cut::Office;
use season_commands::{bundle_failure, run_office};
use season_facts::says_what_is_sound;
use season_file::laws::one_reading;
use season_file::read_script;
use season_texts::fault_text;
use std::alloc::Global;

/// Resumes the office that the keeper holds, and answers the requests that the source gives.
/// The source is read after the office has resumed. It returns the keeper.
pub fn resume_season<S: Source, K: Sink, P: Keeper>(
    alloc: Global,
    source: &mut S,
    sink: &mut K,
    keeper: P,
) -> (Status, P)
    ensures written { Outputs (EndsResume (S.left source.old)) (outside_of K.Sink P.Keeper
        sink.old keeper) (outside_of K.Sink P.Keeper sink.new result.1) result.0 }
    ensures read_whole { result.0 ≡ Status.Ok → IsAtEnd (S.left source.new) }
    ensures read_blamed { BlamesSource result.0 (source_of S.Source source.old)
        (source_of S.Source source.new) }
    ensures blamed { BlamesOffice result.0 (outside_of K.Sink P.Keeper sink.old keeper)
        (outside_of K.Sink P.Keeper sink.new result.1) }
    ensures records { JudgesRecords (outside_of K.Sink P.Keeper sink.old keeper)
        (outside_of K.Sink P.Keeper sink.new result.1) result.0 }
    ensures answers { AnswersAfter IsScript IsFaultyScript (source_of S.Source source.old)
        (source_of S.Source source.new) (outside_of K.Sink P.Keeper sink.old keeper)
        (outside_of K.Sink P.Keeper sink.new result.1) result.0 }
    ensures unread { (result.0 ≡ Status.Differs)
        ⊎ TellsNoOffice (still (P.seen keeper).tables (P.seen result.1).tables)
        → source.new ≡ source.old }
{
    match resume_office(alloc, sink, keeper) {
        Ok(office) => go_on(alloc, office, source, sink),
        Err(ended) => ended,
    }
}

/// Reads the requests that the source gives, and answers them over the office.
fn go_on<S: Source, K: Sink, P: Keeper>(
    alloc: Global,
    office: Office<P>,
    source: &mut S,
    sink: &mut K,
) -> (Status, P)
    requires history { IsHistory office.season office.entries office.state }
    requires stands { Stand office.season office.state (P.seen office.keeper).tables }
    ensures written { Outputs (EndsAsked office.season office.state (S.left source.old))
        (outside_of K.Sink P.Keeper sink.old office.keeper)
        (outside_of K.Sink P.Keeper sink.new result.1) result.0 }
    ensures told_before { IsTold (P.seen result.1).tables → IsTold (P.seen office.keeper).tables }
    ensures read_whole { result.0 ≡ Status.Ok → IsAtEnd (S.left source.new) }
    ensures read_blamed { BlamesSource result.0 (source_of S.Source source.old)
        (source_of S.Source source.new) }
    ensures blamed { BlamesOffice result.0 (outside_of K.Sink P.Keeper sink.old office.keeper)
        (outside_of K.Sink P.Keeper sink.new result.1) }
    ensures complete { Tells IsScript (S.left source.old) → ¬ Rose (S.faults source.old)
        (S.faults source.new) → ¬ Rose (K.faults sink.old) (K.faults sink.new) → ¬ Rose (P.seen
        office.keeper).faults (P.seen result.1).faults → EndsWith Status.Ok result.0 }
    ensures refused { Tells IsFaultyScript (S.left source.old)
        → ¬ Rose (S.faults source.old) (S.faults source.new)
        → ¬ Rose (K.faults sink.old) (K.faults sink.new) → EndsWith Status.BadInput result.0 }
{
    match read_requests(alloc, source) {
        Ok(script) => run_office(alloc, office, script.as_slice(), sink),
        Err(failure) => (tell_failure(sink, failure), office.into_keeper()),
    }
}

/// Reads the requests that the source gives.
fn read_requests<S: Source>(alloc: Global, source: &mut S) -> Result<Script, Failure>
    ensures requests { IfOk result (AreLeftRequests (S.left source.old)) }
    ensures ended { OnOk result (IsAtEnd (S.left source.new)) }
    ensures failure { IfErr result (IsFailureOf script_answers (S.left source.old)
        (Rose (S.faults source.old) (S.faults source.new))) }
    ensures count { S.faults source.old ≤ S.faults source.new }
    ensures steady { ¬ IsErrOf result Failure.Read → S.faults source.new ≡ S.faults source.old }
{
    match read_script(alloc, source) {
        Ok(script) => Ok(script),
        Err(fault) => Err(bundle_failure(alloc, fault)),
    }
}

/// Resumes the office that the keeper holds.
/// If none resumes, it writes why, and returns the status of that with the keeper.
pub fn resume_office<K: Sink, P: Keeper>(
    alloc: Global,
    sink: &mut K,
    keeper: P,
) -> Result<Office<P>, (Status, P)>
    ensures resumed { IfOk result (GoesOn P.seen keeper) }
    ensures sound { IfOk result (λ office. (after : Tables)
        → (IsTold after → IsTold (P.seen office.keeper).tables)
        → ¬ TellsNoOffice (still (P.seen keeper).tables after)) }
    ensures unwritten { OnOk result (sink.new ≡ sink.old) }
    ensures unresumed { IfErr result (λ ended. ReportsUnresumed (outside_of K.Sink P.Keeper sink.old
        keeper) (outside_of K.Sink P.Keeper sink.new ended.1) ended.0) }
{
    one_end();
    one_reading();
    match resume_or_season(alloc, keeper) {
        Ok(office) => {
            says_what_is_sound(office.season());
            Ok(office)
        }
        Err((keeper, stopped)) => Err((tell_unresumed(alloc, sink, &stopped), keeper)),
    }
}

/// Writes why no office resumes.
fn tell_unresumed<K: Sink>(alloc: Global, sink: &mut K, stopped: &Unresumed) -> Status
    ensures written { (tables : Tables) → IsUnresumed tables stopped.now → (output : List ℕ)
        × Appends output (K.written sink.old) (K.written sink.new)
        × WritesText (IsUnresumedText tables) result output }
    ensures status { (result ≡ unresumed_status stopped.now)
        ⊎ ((result ≡ Status.OutOfMemory) ⊎ (result ≡ Status.WriteFault)) }
    ensures keeper { stopped.now ≡ Unresumed.KeeperFault
        → (result ≡ Status.KeeperFault) ⊎ (result ≡ Status.WriteFault) }
    ensures write_fault { result ≡ Status.WriteFault
        → Rose (K.faults sink.old) (K.faults sink.new) }
    ensures steady { result ≢ Status.WriteFault → K.faults sink.new ≡ K.faults sink.old }
{
    match stopped {
        Unresumed::NoSeason => {
            write_answer(sink, b"fault: keeper holds no season\n", Status::BadInput)
        }
        Unresumed::BadSeason(fault) => {
            tell_line(sink, fault_text(alloc, *fault), Status::BadInput)
        }
        Unresumed::Stray { row } => tell_line(
            sink,
            stray_text(alloc, b"fault: stray answer ", *row),
            Status::Differs,
        ),
        Unresumed::StrayRaise { row } => tell_line(
            sink,
            stray_text(alloc, b"fault: stray raise ", *row),
            Status::Differs,
        ),
        Unresumed::Differs {
            round,
            cand,
            kept,
            computed,
            season,
        } => tell_line(
            sink,
            differs_text(alloc, &season.matrix, *round, *cand, *kept, *computed),
            Status::Differs,
        ),
        Unresumed::KeeperFault => tell_keeper_fault(sink),
        Unresumed::OutOfMemory => tell_no_memory(sink),
    }
}

/// Writes a line that was made, with its status, or that memory ran out for it.
fn tell_line<K: Sink>(sink: &mut K, line: Result<Text, OutOfMemory>, status: Status) -> Status
    requires { status ≢ Status.WriteFault }
    ensures told { IsTextOut (made_status status line) (made_text line) (K.written sink.old)
        (K.written sink.new) (Rose (K.faults sink.old) (K.faults sink.new)) result }
    ensures status { (result ≡ status)
        ⊎ ((result ≡ Status.OutOfMemory) ⊎ (result ≡ Status.WriteFault)) }
    ensures write_fault { result ≡ Status.WriteFault
        → Rose (K.faults sink.old) (K.faults sink.new) }
    ensures steady { result ≢ Status.WriteFault → K.faults sink.new ≡ K.faults sink.old }
{
    match line {
        Ok(line) => write_answer(sink, line.as_slice(), status),
        Err(OutOfMemory) => tell_no_memory(sink),
    }
}
