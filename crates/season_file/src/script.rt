// The body of a section of requests alone, read from a source.
ghost use Rattle.std.specs.Prelude.{◌≡◌, ◌≤◌, IfOk, IfErr, IsErrOf};
ghost use Rattle.office_base.specs.Outside.{Rose};
ghost use Rattle.season_file.specs.Script.{GaveScript, IsScriptFault};

use crate::content::{read_bytes, script_error};
use crate::fault::SeasonFault;
use office_base::Source;
use office_text::skip_mark;
pub use request_rows::Script;
use std::alloc::Global;

/// Reads the requests that the bytes of a source spell up to its end, or returns their first fault: `ReadFault`,
/// `TooLong`, `NotUtf8`, `BadRequest` or `OutOfMemory`. The bytes are the body of a section of requests, without its
/// section line, and may be empty. A byte order mark at their start is skipped, and then one more, as at the start of
/// a section's body.
pub fn read_script<S: Source>(alloc: Global, source: &mut S) -> Result<Script, SeasonFault>
    ensures value { IfOk result (λ script.
        GaveScript (S.left source.old) (S.left source.new) script) }
    ensures fault { IfErr result (λ fault.
        IsScriptFault (S.left source.old) (S.left source.new) fault) }
    ensures cause { IsErrOf result SeasonFault.ReadFault
        → Rose (S.faults source.old) (S.faults source.new) }
    ensures count { S.faults source.old ≤ S.faults source.new }
    ensures steady { ¬ IsErrOf result SeasonFault.ReadFault
        → S.faults source.new ≡ S.faults source.old }
{
    let bytes = read_bytes(alloc, source)?;
    if std::str::from_utf8(bytes.as_slice()).is_err() {
        return Err(SeasonFault::NotUtf8);
    }
    match request_rows::read_script(alloc, skip_mark(bytes.as_slice())) {
        Ok(script) => Ok(script),
        Err(fault) => Err(script_error(fault)),
    }
}
