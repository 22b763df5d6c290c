// What an audit finds of the bytes of a source.
ghost use Rattle.std.specs.Prelude.{◌≡◌, ◌≤◌, IfOk, IfErr, IsErrOf, OnOk, length};
ghost use Rattle.office_base.specs.Limits.{most_bundle_bytes};
ghost use Rattle.office_base.specs.Outside.{IsAtEnd, Rose};
ghost use Rattle.command_answers.specs.Answers.{IsFailureOf, IsInputFailure};
ghost use Rattle.special_audit.specs.Found.{IsFound};
ghost use Rattle.audit_command.specs.Audit.{HasFound, TellsFault, audit_answers};

use crate::texts::fault_text;
use command_answers::Failure;
use dossier_file::DossierFault;
use office_base::limits::MOST_BUNDLE_BYTES;
use office_base::{OutOfMemory, ReadFault, Source, read_whole};
use special_audit::{Found, FoundFault, SpecialError, find};
use std::alloc::Global;

/// Returns what an audit finds of the bytes that the source gives up to its end.
pub(crate) fn read_found<S: Source>(alloc: Global, source: &mut S) -> Result<Found, Failure>
    ensures output { IfOk result (HasFound (S.left source.old)) }
    ensures ended { OnOk result (IsAtEnd (S.left source.new)) }
    ensures failure { IfErr result (IsFailureOf audit_answers (S.left source.old)
        (Rose (S.faults source.old) (S.faults source.new))) }
    ensures count { S.faults source.old ≤ S.faults source.new }
    ensures steady { ¬ IsErrOf result Failure.Read → S.faults source.new ≡ S.faults source.old }
{
    match read_whole(alloc, source, MOST_BUNDLE_BYTES) {
        Ok(bytes) => found_in(alloc, bytes.as_slice()),
        Err(ReadFault::TooLong) => Err(failure_of(
            alloc,
            FoundFault::Dossier(DossierFault::TooLong),
        )),
        Err(ReadFault::Failed) => Err(Failure::Read),
        Err(ReadFault::OutOfMemory) => Err(Failure::NoMemory),
    }
}

/// Returns what an audit finds of bytes.
fn found_in(alloc: Global, bytes: &[u8]) -> Result<Found, Failure>
    requires { length bytes.now ≤ most_bundle_bytes }
    ensures value { IfOk result (IsFound bytes.now) }
    ensures failure { IfErr result (IsInputFailure audit_answers bytes.now) }
{
    match find(alloc, bytes) {
        Ok(found) => Ok(found),
        Err(fault) => Err(failure_of(alloc, fault)),
    }
}

/// Returns the failure that reports why nothing was found.
fn failure_of(alloc: Global, fault: FoundFault) -> Failure
    ensures { TellsFault fault result }
{
    match fault {
        FoundFault::Dossier(DossierFault::OutOfMemory)
        | FoundFault::Special(SpecialError::OutOfMemory) => Failure::NoMemory,
        _ => match fault_text(alloc, fault) {
            Ok(line) => Failure::Bad(line),
            Err(OutOfMemory) => Failure::NoMemory,
        },
    }
}
