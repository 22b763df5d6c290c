// The top call of the office.
ghost use Rattle.std.specs.Prelude.{◌≤◌, length};
ghost use Rattle.std.specs.List.{AllByRecursion};
ghost use Rattle.office_base.specs.Limits.{most_doors, most_connections};
ghost use Rattle.office_commands.specs.Call.{call_of};
ghost use Rattle.office_commands.specs.Keeping.{Runs, RunsWords};
ghost use Rattle.command_words.specs.Words.{IsInRange};

use crate::laws::one_answer;
use crate::{serve_kept, serve_season};
use audit_command::{audit_best, audit_season};
use command_answers::{Status, finish, tell_no_memory, write_answer};
use command_words::laws::one_spelling;
use command_words::{Command, OutKind, Start, WordsFault, read_words};
use keeper_mem::Keeper;
use office_base::{Sink, Source, Words};
use office_links::Door;
use resume_command::resume_season;
use season_commands::{check_answer, run_generated, run_season, write_generated};
use special_command::{SpecialPapers, special_season};
use std::alloc::Global;
use std::sync::Wait;
use std::thread::Threads;
use step_command::step_answer;
use units_command::units_season;

/// Runs the command that the words spell, from the bytes of the source to the bytes of the sink,
/// and returns the keeper.
///
/// `step` reads a step sheet and writes whom the step admits.
/// `check` reads a season bundle and writes how much it has.
/// `run` reads a season bundle with its requests, begins an office over the keeper and answers the requests.
/// It writes each reply before it handles the next request.
/// `resume` resumes the office that the keeper holds, reads requests and answers them in the same way.
/// `units` reads a bundle with home-state quotas and continues as `run` with the plain bundle that results from it.
/// `special` resumes the office that the keeper holds, reads lists of those without an admission, writes the special
/// round over them and puts nothing. `special lists` also writes the list and the cutoffs of each programme in it.
/// `serve` begins an office with the season that is read, or resumes the one that the keeper holds.
/// It answers what comes through the doors, with a worker behind each, and writes at the end how far it is.
/// `audit` reads a dossier and writes whether what was published in it breaks a clause, with status `Broken` if it does.
/// `audit best` also writes whether every published round is the best one.
/// `generate` makes up a season from a seed and writes its bundle; or it begins an office over the keeper,
/// answers the requests of that season, and then writes its summary.
///
/// If the words name a store, the given keeper takes its place, whatever it is. In the same way, the given doors take
/// the place of the workers and connections that the words name. If they are those, one for each worker with as many
/// connections to come as the words say, a service that ends well took all these connections.
/// There are at most 64 doors, each with at most 100,000 connections still to come.
pub fn allocate<
    R: Threads + Wait + Sync,
    S: Source,
    K: Sink,
    P: Keeper + Send,
    D: Door<Conn: Send> + Send,
>(
    rt: &R,
    alloc: Global,
    words: &Words,
    source: &mut S,
    sink: &mut K,
    keeper: P,
    doors: &mut [D],
) -> (Status, P)
    requires few { length doors.old ≤ most_doors }
    requires suit { AllByRecursion (λ d. D.to_come d ≤ most_connections) doors.old }

    ensures { RunsWords words.now (call_of S.Source K.Sink P.Keeper D.Door D.Conn.Link
        source.old source.new sink.old sink.new keeper result.1 doors.old doors.new) result.0 }
{
    one_spelling();
    match read_words(alloc, words) {
        Ok(command) => run(rt, alloc, command, source, sink, keeper, doors),
        Err(WordsFault::Usage) => (write_answer(sink, b"fault: usage\n", Status::Usage), keeper),
        Err(WordsFault::OutOfMemory) => (tell_no_memory(sink), keeper),
    }
}

/// Runs a command. What it does is said of the command alone; `allocate` says it of the words that spell the command.
fn run<R: Threads + Wait + Sync, S: Source, K: Sink, P: Keeper + Send, D: Door<Conn: Send> + Send>(
    rt: &R,
    alloc: Global,
    command: Command,
    source: &mut S,
    sink: &mut K,
    keeper: P,
    doors: &mut [D],
) -> (Status, P)
    requires range { IsInRange command }
    requires few { length doors.old ≤ most_doors }
    requires suit { AllByRecursion (λ d. D.to_come d ≤ most_connections) doors.old }
    ensures { Runs command (call_of S.Source K.Sink P.Keeper D.Door D.Conn.Link
        source.old source.new sink.old sink.new keeper result.1 doors.old doors.new) result.0 }
{
    one_answer();
    match command {
        Command::Step => (finish(sink, step_answer(alloc, source)), keeper),
        Command::Check => (finish(sink, check_answer(alloc, source)), keeper),
        Command::Run(_) => run_season(alloc, source, sink, keeper),
        Command::Resume(_) => resume_season(alloc, source, sink, keeper),
        Command::Units(_) => units_season(alloc, source, sink, keeper),
        Command::Special(_) => {
            special_season(alloc, source, sink, keeper, SpecialPapers::RoundAlone)
        }
        Command::SpecialLists(_) => {
            special_season(alloc, source, sink, keeper, SpecialPapers::WithLists)
        }
        Command::Serve { start, .. } => match start {
            Start::New => serve_season(rt, alloc, source, sink, keeper, doors),
            Start::Kept => serve_kept(rt, alloc, sink, keeper, doors),
        },
        Command::Audit => (audit_season(alloc, source, sink), keeper),
        Command::AuditBest => (audit_best(alloc, source, sink), keeper),
        Command::Generate { n, seed, out } => match out {
            OutKind::Text => (write_generated(alloc, n, seed, sink), keeper),
            OutKind::Run => run_generated(alloc, n, seed, sink, keeper),
        },
    }
}
