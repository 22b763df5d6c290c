// The command `special`: an office resumes from what the keeper holds. Then the lists that the source gives are read,
// and the special round over them is written.
ghost use Rattle.std.specs.Prelude.{◌≡◌, ◌≢◌, ◌<◌, ◌≤◌, ◌⊎◌, length, IfOk, IfErr, OnOk, IsErrOf};
ghost use Rattle.office_base.specs.Limits.{most_bundle_bytes};
ghost use Rattle.office_base.specs.Outside.{Rose, IsAtEnd};
ghost use Rattle.kept_rows.specs.Tables.{still};
ghost use Rattle.special_round.specs.Special.{IsSpecial};
ghost use Rattle.command_answers.specs.Answers.{HasLeft, IsFailureOf, IsInputFailure, Tells, TellsLine};
ghost use Rattle.command_answers.specs.Ends.{BlamesStreams};
ghost use Rattle.command_answers.specs.Writes.{WritesFor};
ghost use Rattle.office_base.specs.Visible.{sink_of, source_of, streams_of};
ghost use Rattle.season_commands.specs.Outside.{BlamesOffice, BlamesSource, EndsWith, Outputs, outside_of};
ghost use Rattle.resume_command.specs.Resume.{JudgesRecords, TellsNoOffice};
ghost use Rattle.special_round.specs.Season.{IsSpecialFault};
ghost use Rattle.special_command.specs.Special.{AnswersLists, AreFaultyLists, AreSpecialLists, EndsSpecial, IsSpecialOutput, IsSpecialText, IsToldFault, special_answers, too_long_line};

use crate::laws::{one_special_answer, special_rounds_can_be_listed, special_rounds_can_be_shown};
use crate::lists::{SpecialPapers, papers_text};
use crate::special_fault_text;
use command_answers::{Failure, Status, tell_failure, write_answer};
use keeper_mem::Keeper;
use office_base::limits::MOST_BUNDLE_BYTES;
use office_base::{OutOfMemory, ReadFault, Sink, Source, Steps, Text, read_whole};
use resume_command::resume_office;
use round_cut::Office;
use season_facts::says_what_is_sound;
use special_round::{Special, SpecialFault, special};
use std::alloc::Global;
use std::marker::Brand;
use std::sync::ledger::{Blank, Ledger};

/// Resumes the office that the keeper holds, reads the lists that the source gives,
/// and writes the special round over them, alone or with the list and the cutoffs of each programme.
/// The source is read after the office has resumed. It puts nothing into the keeper, and returns it.
pub fn special_season<S: Source, K: Sink, P: Keeper>(
    alloc: Global,
    source: &mut S,
    sink: &mut K,
    keeper: P,
    papers: SpecialPapers,
) -> (Status, P)
    ensures written { Outputs (EndsSpecial papers (S.left source.old)) (outside_of K.Sink P.Keeper
        sink.old keeper) (outside_of K.Sink P.Keeper sink.new result.1) result.0 }
    ensures read_whole { result.0 ≡ Status.Ok → IsAtEnd (S.left source.new) }
    ensures read_blamed { BlamesSource result.0 (source_of S.Source source.old)
        (source_of S.Source source.new) }
    ensures blamed { BlamesOffice result.0 (outside_of K.Sink P.Keeper sink.old keeper)
        (outside_of K.Sink P.Keeper sink.new result.1) }
    ensures records { JudgesRecords (outside_of K.Sink P.Keeper sink.old keeper)
        (outside_of K.Sink P.Keeper sink.new result.1) result.0 }
    ensures answers { AnswersLists (source_of S.Source source.old)
        (source_of S.Source source.new) (outside_of K.Sink P.Keeper sink.old keeper)
        (outside_of K.Sink P.Keeper sink.new result.1) result.0 }
    ensures unread { (result.0 ≡ Status.Differs)
        ⊎ TellsNoOffice (still (P.seen keeper).tables (P.seen result.1).tables)
        → source.new ≡ source.old }
{
    match resume_office(alloc, sink, keeper) {
        Ok(office) => tell_round(alloc, office, source, sink, papers),
        Err(ended) => ended,
    }
}

/// Reads the lists that the source gives, and writes the special round over them or why there is none.
fn tell_round<S: Source, K: Sink, P: Keeper>(
    alloc: Global,
    office: Office<P>,
    source: &mut S,
    sink: &mut K,
    papers: SpecialPapers,
) -> (Status, P)
    ensures written { WritesFor (IsSpecialText papers office.season office.state
        (S.left source.old)) (sink_of K.Sink sink.old) (sink_of K.Sink sink.new) result.0 }
    ensures same { result.1 ≡ office.keeper }
    ensures read_whole { result.0 ≡ Status.Ok → IsAtEnd (S.left source.new) }
    ensures no_difference { result.0 ≢ Status.Differs }
    ensures blamed { BlamesStreams result.0 (streams_of S.Source K.Sink source.old sink.old)
        (streams_of S.Source K.Sink source.new sink.new) }
    ensures complete { Tells (AreSpecialLists office.season office.state) (S.left source.old)
        → ¬ Rose (S.faults source.old) (S.faults source.new)
        → ¬ Rose (K.faults sink.old) (K.faults sink.new) → EndsWith Status.Ok result.0 }
    ensures refused { Tells (AreFaultyLists office.season office.state) (S.left source.old)
        → ¬ Rose (S.faults source.old) (S.faults source.new)
        → ¬ Rose (K.faults sink.old) (K.faults sink.new) → EndsWith Status.BadInput result.0 }
{
    one_special_answer();
    match special_answer(alloc, &office, source, papers) {
        Ok(text) => (
            write_answer(sink, text.as_slice(), Status::Ok),
            office.into_keeper(),
        ),
        Err(failure) => (tell_failure(sink, failure), office.into_keeper()),
    }
}

/// Returns the text of the special round over the lists that the source gives.
fn special_answer<S: Source, P: Keeper>(
    alloc: Global,
    office: &Office<P>,
    source: &mut S,
    papers: SpecialPapers,
) -> Result<Text, Failure>
    ensures output { IfOk result
        (HasLeft (IsSpecialOutput papers office.now.season office.now.state) (S.left source.old)) }
    ensures ended { OnOk result (IsAtEnd (S.left source.new)) }
    ensures failure { IfErr result (IsFailureOf (special_answers papers office.now.season
        office.now.state) (S.left source.old) (Rose (S.faults source.old) (S.faults source.new))) }
    ensures count { S.faults source.old ≤ S.faults source.new }
    ensures steady { ¬ IsErrOf result Failure.Read → S.faults source.new ≡ S.faults source.old }
{
    match read_whole(alloc, source, MOST_BUNDLE_BYTES) {
        Ok(lists) => lists_answer(alloc, office, lists.as_slice(), papers),
        Err(ReadFault::TooLong) => Err(too_long(alloc)),
        Err(ReadFault::Failed) => Err(Failure::Read),
        Err(ReadFault::OutOfMemory) => Err(Failure::NoMemory),
    }
}

/// Returns the text of the special round over these lists.
fn lists_answer<P: Keeper>(
    alloc: Global,
    office: &Office<P>,
    lists: &[u8],
    papers: SpecialPapers,
) -> Result<Text, Failure>
    requires { length lists.now ≤ most_bundle_bytes }
    ensures output { IfOk result
        (IsSpecialOutput papers office.now.season office.now.state lists.now) }
    ensures failure { IfErr result
        (IsInputFailure (special_answers papers office.now.season office.now.state) lists.now) }
{
    match round_of::<Brand, P>(alloc, office, lists, Blank::new(1)) {
        Ok(special) => {
            says_what_is_sound(&special.season);
            special_rounds_can_be_shown();
            special_rounds_can_be_listed();
            Ok(papers_text(alloc, &special, papers)?)
        }
        Err(fault) => Err(lists_failure(alloc, fault)),
    }
}

/// Makes the special round over these lists, its steps counted in a newly opened ledger.
fn round_of<L: Ledger, P: Keeper>(
    alloc: Global,
    office: &Office<P>,
    lists: &[u8],
    blank: Blank,
) -> Result<Special, SpecialFault>
    requires name { blank.name ≡ L.name }
    requires parts { blank.parts ≡ L.parts }
    requires some { 0 < blank.parts }
    ensures special { IfOk result (IsSpecial office.now.season office.now.state lists.now) }
    ensures fault { IfErr result (IsSpecialFault office.now.season office.now.state lists.now) }
{
    let mut steps: Steps<L> = Steps::new(blank);
    special(alloc, office, lists, &mut steps)
}

/// Returns the failure that reports why there is no special round.
fn lists_failure(alloc: Global, fault: SpecialFault) -> Failure
    ensures { IsToldFault fault result }
{
    match fault {
        SpecialFault::OutOfMemory => Failure::NoMemory,
        _ => match special_fault_text(alloc, fault) {
            Ok(line) => Failure::Bad(line),
            Err(OutOfMemory) => Failure::NoMemory,
        },
    }
}

/// Returns the failure that reports too many bytes of lists.
fn too_long(alloc: Global) -> Failure
    ensures { TellsLine too_long_line result }
{
    let mut line = Text::new(alloc);
    match line.extend_from_slice(b"fault: special TooLong\n") {
        Ok(()) => Failure::Bad(line),
        Err(OutOfMemory) => Failure::NoMemory,
    }
}
