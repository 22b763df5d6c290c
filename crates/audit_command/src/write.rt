// The commands `audit` and `audit best`, from the bytes of the source to the bytes of the sink.
ghost use Rattle.office_base.specs.Visible.{sink_of, streams_of};
ghost use Rattle.command_answers.specs.Writes.{Told};
ghost use Rattle.audit_command.specs.Audit.{Audits, status_of_audit, text_of_audit};
ghost use Rattle.audit_command.specs.Best.{AuditsBest};

use crate::answer::{Audited, audit_answer};
use crate::best::best_answer;
use crate::laws::one_audit;
use command_answers::{Failure, Status, tell_failure, write_answer};
use office_base::{Sink, Source};
use std::alloc::Global;

/// Reads the dossier that the source gives, and writes the verdict on it, or its first fault.
/// It returns `Ok` if no clause is broken, and `Broken` if one is.
pub fn audit_season<S: Source, K: Sink>(alloc: Global, source: &mut S, sink: &mut K) -> Status
    ensures { Audits (streams_of S.Source K.Sink source.old sink.old)
        (streams_of S.Source K.Sink source.new sink.new) result }
{
    one_audit();
    let answer = audit_answer(alloc, source);
    write_audit(sink, answer)
}

/// Reads the dossier that the source gives, and writes the verdict on it and whether every published round is the best one, or its first fault. `Ok` comes
/// if no clause is broken and every round is the best one, `Broken` otherwise.
pub fn audit_best<S: Source, K: Sink>(alloc: Global, source: &mut S, sink: &mut K) -> Status
    ensures { AuditsBest (streams_of S.Source K.Sink source.old sink.old)
        (streams_of S.Source K.Sink source.new sink.new) result }
{
    one_audit();
    let answer = best_answer(alloc, source);
    write_audit(sink, answer)
}

/// Writes a verdict, or why there is none, and gives its status.
fn write_audit<K: Sink>(sink: &mut K, answer: Result<Audited, Failure>) -> Status
    ensures { Told (status_of_audit answer) (text_of_audit answer)
        (sink_of K.Sink sink.old) (sink_of K.Sink sink.new) result }
{
    match answer {
        Ok(Audited::Sound(line)) => write_answer(sink, line.as_slice(), Status::Ok),
        Ok(Audited::Broken(line)) => write_answer(sink, line.as_slice(), Status::Broken),
        Err(failure) => tell_failure(sink, failure),
    }
}
