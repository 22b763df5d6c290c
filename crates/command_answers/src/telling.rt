// A text, or the line of a fault, written with its status.
ghost use Rattle.std.specs.Prelude.{Err};
ghost use Rattle.office_base.specs.FaultLines.{memory_line};
ghost use Rattle.office_base.specs.Visible.{sink_of};
ghost use Rattle.command_answers.specs.Writes.{Told, keeper_line, status_of, text_of, usage_line};

use crate::failure::Failure;
use crate::status::Status;
use office_base::{Sink, Text, write_whole};

/// Writes the line that reports that memory ran out.
pub fn tell_no_memory<K: Sink>(sink: &mut K) -> Status
    ensures { Told Status.OutOfMemory memory_line
        (sink_of K.Sink sink.old) (sink_of K.Sink sink.new) result }
{
    write_answer(sink, b"fault: memory\n", Status::OutOfMemory)
}

/// Writes the line that reports that the keeper failed.
pub fn tell_keeper_fault<K: Sink>(sink: &mut K) -> Status
    ensures { Told Status.KeeperFault keeper_line
        (sink_of K.Sink sink.old) (sink_of K.Sink sink.new) result }
{
    write_answer(sink, b"fault: keeper\n", Status::KeeperFault)
}

/// Writes the line that reports that the words spell no command.
pub fn tell_usage<K: Sink>(sink: &mut K) -> Status
    ensures { Told Status.Usage usage_line
        (sink_of K.Sink sink.old) (sink_of K.Sink sink.new) result }
{
    write_answer(sink, b"fault: usage\n", Status::Usage)
}

/// Writes the answer of a command, or why there is none, and returns its status.
pub fn finish<K: Sink>(sink: &mut K, answer: Result<Text, Failure>) -> Status
    ensures { Told (status_of answer) (text_of answer)
        (sink_of K.Sink sink.old) (sink_of K.Sink sink.new) result }
{
    match answer {
        Ok(text) => write_answer(sink, text.as_slice(), Status::Ok),
        Err(failure) => tell_failure(sink, failure),
    }
}

/// Writes why there is no answer, and returns the status of that.
pub fn tell_failure<K: Sink>(sink: &mut K, failure: Failure) -> Status
    ensures { Told (status_of (Err failure)) (text_of (Err failure))
        (sink_of K.Sink sink.old) (sink_of K.Sink sink.new) result }
{
    match failure {
        Failure::Bad(line) => write_answer(sink, line.as_slice(), Status::BadInput),
        Failure::Read => write_answer(sink, b"fault: read\n", Status::ReadFault),
        Failure::NoMemory => tell_no_memory(sink),
    }
}

/// Writes a text whole and returns its status, or returns `WriteFault` if the sink fails.
pub fn write_answer<K: Sink>(sink: &mut K, text: &[u8], status: Status) -> Status
    ensures { Told status text.now (sink_of K.Sink sink.old) (sink_of K.Sink sink.new) result }
{
    match write_whole(sink, text) {
        Ok(()) => status,
        Err(_) => Status::WriteFault,
    }
}
