// The text of a generated season.
ghost use Rattle.std.specs.Prelude.{◌≡◌, ◌≤◌, ◌⊎◌};
ghost use Rattle.office_base.specs.Limits.{most_generated};
ghost use Rattle.office_base.specs.Visible.{sink_of};
ghost use Rattle.command_answers.specs.Ends.{BlamesSink};
ghost use Rattle.command_answers.specs.Writes.{WritesFor};
ghost use Rattle.season_commands.specs.Generated.{IsGeneratedText};

use command_answers::{Status, tell_no_memory, write_answer};
use office_base::{OutOfMemory, Sink};
use season_generator::generate;
use std::alloc::Global;

/// Writes the bundle of the season of `n` candidates, from 1 to 100,000, that the seed gives.
pub fn write_generated<K: Sink>(alloc: Global, n: u32, seed: u32, sink: &mut K) -> Status
    requires low { 1 ≤ n }
    requires high { n ≤ most_generated }
    ensures written { WritesFor (IsGeneratedText n seed)
        (sink_of K.Sink sink.old) (sink_of K.Sink sink.new) result }
    ensures own { (result ≡ Status.Ok)
        ⊎ ((result ≡ Status.OutOfMemory) ⊎ (result ≡ Status.WriteFault)) }
    ensures sink { BlamesSink result (sink_of K.Sink sink.old) (sink_of K.Sink sink.new) }
{
    match generate(alloc, n, seed) {
        Ok(text) => write_answer(sink, text.as_slice(), Status::Ok),
        Err(OutOfMemory) => tell_no_memory(sink),
    }
}
