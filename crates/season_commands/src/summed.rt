// The result of a generated season, and how it is written.
ghost use Rattle.std.specs.Prelude.{◌≡◌, ◌≢◌, IfOk, map};
ghost use Rattle.office_base.specs.Outside.{Rose};
ghost use Rattle.rounds.specs.Round.{seated};
ghost use Rattle.season_generator.specs.Summary.{summary_text};
ghost use Rattle.command_answers.specs.Writes.{IsTextOut};
ghost use Rattle.season_commands.specs.Generated.{summary_of, summed_status, summed_text};

use crate::tally::Tally;
use command_answers::{Status, tell_keeper_fault, tell_no_memory, write_answer};
use keeper_mem::Keeper;
use office_base::{Listed, OutOfMemory, Sink, Text};
use round_cut::{Office, OfficeFault};
use season_generator::{Summary, summary_text};
use shown_replies::shown_rows;
use std::alloc::Global;

/// Returns the summary of a generated season, by the tally of its answers and the state of its office.
pub(crate) fn tallied_text<P: Keeper>(
    alloc: Global,
    n: u32,
    seed: u32,
    office: &Office<P>,
    tally: Tally,
) -> Result<Text, OutOfMemory>
    ensures { IfOk result (λ text. text ≡ summary_text (summary_of n seed tally office.now.state)) }
{
    let summary = Summary {
        candidates: n,
        seed,
        seated: seated_in_rounds(alloc, office)?,
        noted: tally.noted,
        refused: tally.refused,
        admitted: shown_rows(office.book()).len(),
    };
    summary_text(alloc, &summary)
}

/// Counts how many have a seat in each published round, from round 1 on.
fn seated_in_rounds<P: Keeper>(
    alloc: Global,
    office: &Office<P>,
) -> Result<Listed<usize>, OutOfMemory>
    ensures { IfOk result (λ counts.
        counts ≡ map (λ round. seated round.seats) office.now.state.rounds) }
{
    let mut counts = Listed::new(alloc);
    for before in 0..office.published() {
        let Some(round) = office.round(before + 1) else {
            unreachable!();
        };
        counts.push(round.seated())?;
    }
    Ok(counts)
}

/// Writes the summary, or why there is none.
pub(crate) fn write_summary<K: Sink>(sink: &mut K, summary: Result<Text, OfficeFault>) -> Status
    ensures told { IsTextOut (summed_status summary) (summed_text summary) (K.written sink.old)
        (K.written sink.new) (Rose (K.faults sink.old) (K.faults sink.new)) result }
    ensures steady { result ≢ Status.WriteFault → K.faults sink.new ≡ K.faults sink.old }
{
    match summary {
        Ok(text) => write_answer(sink, text.as_slice(), Status::Ok),
        Err(OfficeFault::KeeperFault) => tell_keeper_fault(sink),
        Err(OfficeFault::OutOfMemory) => tell_no_memory(sink),
    }
}
