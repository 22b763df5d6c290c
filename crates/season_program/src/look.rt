// A first look at a season: `check`, `run memory` and `generate` by their words.
ghost use Rattle.office_base.specs.Visible.{streams_of};
ghost use Rattle.command_words.specs.Words.{IsInRange};
ghost use Rattle.season_program.specs.Look.{Looks, LooksFirst};

use command_answers::{Status, finish, tell_no_memory, tell_usage};
use command_words::laws::one_spelling;
use command_words::{Command, OutKind, Store, WordsFault, read_words};
use keeper_mem::{SureKeeper, Teller};
use office_base::{Sink, Source, Words};
use season_commands::laws::{one_answer, one_bundle_answer};
use season_commands::{check_answer, run_generated, run_season, write_generated};
use std::alloc::Global;

/// Runs the command that the words spell, from the bytes of the source to the bytes of the sink, if it is `check`,
/// `run` over a store in memory, or `generate`.
/// Other words are refused, and then nothing is read: `run` over a file would need a database.
pub fn first_look<S: Source, K: Sink>(
    alloc: Global,
    words: &Words,
    source: &mut S,
    sink: &mut K,
) -> Status
    ensures { LooksFirst words.now (streams_of S.Source K.Sink source.old sink.old)
        (streams_of S.Source K.Sink source.new sink.new) result }
{
    one_spelling();
    one_answer();
    one_bundle_answer();
    match read_words(alloc, words) {
        Ok(command) => look(alloc, &command, source, sink),
        Err(WordsFault::Usage) => tell_usage(sink),
        Err(WordsFault::OutOfMemory) => tell_no_memory(sink),
    }
}

/// Runs a command of a first look, and refuses every other one.
/// A keeper in memory that never fails keeps the records of a season until the command ends.
fn look<S: Source, K: Sink>(
    alloc: Global,
    command: &Command,
    source: &mut S,
    sink: &mut K,
) -> Status
    requires { IsInRange command.now }
    ensures { Looks command.now (streams_of S.Source K.Sink source.old sink.old)
        (streams_of S.Source K.Sink source.new sink.new) result }
{
    one_answer();
    match command {
        Command::Check => finish(sink, check_answer(alloc, source)),
        Command::Run(store) => match store {
            Store::Memory => {
                let keeper = SureKeeper::new(alloc);
                let (status, keeper) = run_season(alloc, source, sink, keeper);
                keeper.tells();
                status
            }
            Store::File(_) => tell_usage(sink),
        },
        Command::Generate { n, seed, out } => match out {
            OutKind::Text => write_generated(alloc, *n, *seed, sink),
            OutKind::Run => {
                let keeper = SureKeeper::new(alloc);
                let (status, keeper) = run_generated(alloc, *n, *seed, sink, keeper);
                keeper.tells();
                status
            }
        },
        _ => tell_usage(sink),
    }
}
