// The script: its requests, in their order.
ghost use Rattle.std.specs.Prelude.{◌≡◌, IfOk, IfErr, MatchBool, Ok, None};
ghost use Rattle.section_rows.specs.Rows.{rows_of};
ghost use Rattle.request_rows.specs.Requests.{IsPut, IsScriptFault, request_of, script_of};
ghost use Rattle.request_rows.specs.declared.script.ScriptFault.TheVariants.{OutOfMemory as NoMemory};

use crate::fields::read_request;
use office_asks::Request;
use office_base::{Listed, OutOfMemory};
use section_rows::Rows;
use std::alloc::Global;

/// Requests, in the order in which they are made.
pub type Script = Listed<Request>;

/// Why a script was not read. Nothing is left behind.
#[derive(Clone, Copy, Debug, PartialEq, Eq, thiserror::Error)]
pub enum ScriptFault {
    /// The first row that is no request. Rows are counted from 1.
    #[error("row {row}: bad request")]
    BadRequest { row: u32 },
    /// There was no memory for the script.
    #[error("out of memory")]
    OutOfMemory,
}

impl From<OutOfMemory> for ScriptFault {
    ghost from_gives = { λ _ fault. fault ≡ NoMemory };

    fn from(_: OutOfMemory) -> Self {
        ScriptFault::OutOfMemory
    }
}

/// Puts the request that a row is after the others, and says whether it is one.
fn put(script: &mut Script, row: &Rows<'_>) -> Result<bool, OutOfMemory>
    ensures { IfOk result (λ put.
        MatchBool put (IsPut script.old row.now.row script.new) (request_of row.now.row ≡ None)) }
{
    let Some(request) = read_request(row) else {
        return Ok(false);
    };
    let one = [request];
    script.extend_from_slice(&one)?;
    Ok(true)
}

/// The requests that the rows of a body are, or the first row that is none. A byte order mark at the start is skipped, and the
/// body may be empty.
pub fn read_script(alloc: Global, body: &[u8]) -> Result<Script, ScriptFault>
    ensures value { IfOk result (λ script. script_of (rows_of body.now) ≡ Ok script) }
    ensures fault { IfErr result (λ fault. IsScriptFault (rows_of body.now) fault) }
{
    let mut rows = Rows::new(alloc, body);
    let mut script = Script::new(alloc);
    let mut number: u32 = 1;
    'rows: while rows.advance()? {
        if !put(&mut script, &rows)? {
            return Err(ScriptFault::BadRequest { row: number });
        }
        // no memory holds so many requests
        let Some(next) = number.checked_add(1) else {
            return Err(ScriptFault::OutOfMemory);
        };
        number = next;
    }
    Ok(script)
}
