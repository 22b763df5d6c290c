// What the parts of a dossier give.
ghost use Rattle.std.specs.Prelude.{◌≡◌, ◌≤◌, length, IfOk, IfErr, IsErrOf};
ghost use Rattle.office_base.specs.Limits.{most_bundle_bytes};
ghost use Rattle.office_base.specs.Outside.{Fails, IsAtEnd, Took};
ghost use Rattle.text_readers.specs.Reading.{IsTextFault};
ghost use Rattle.dossier_file.specs.Dossier.{IsRequestsError, IsScript, IsUnread, papers_error, season_error};
ghost use Rattle.dossier_file.specs.Papers.{AreDuePapers};

use crate::due::{accepted_cuts, due_texts};
use crate::fault::DossierFault;
use crate::papers::Papers;
use crate::texts::take_all;
use office_asks::Request;
use office_base::limits::MOST_BUNDLE_BYTES;
use office_base::{ReadFault, Source, Text, read_whole};
use publish::TextFault;
use request_rows::{Script, ScriptFault, read_script};
use season_file::{Season, SeasonFault};
use std::alloc::Global;
use text_readers::codes_are_spelled;

/// Returns the bytes that a source gives up to its end. It fails if the source does, if there are more than 134,217,728 bytes,
/// or if memory runs out; then nothing of them is left.
pub fn read_bytes<S: Source>(alloc: Global, source: &mut S) -> Result<Text, DossierFault>
    ensures taken { IfOk result (λ bytes. Took bytes (S.left source.old) (S.left source.new)) }
    ensures ended { IfOk result (λ bytes. IsAtEnd (S.left source.new)) }
    ensures short { IfOk result (λ bytes. length bytes ≤ most_bundle_bytes) }
    ensures fault { IfErr result (λ fault. IsUnread (S.left source.old) (S.left source.new) fault) }
    ensures blamed { Fails (IsErrOf result DossierFault.ReadFault)
        (S.faults source.old) (S.faults source.new) }
{
    match read_whole(alloc, source, MOST_BUNDLE_BYTES) {
        Ok(bytes) => Ok(bytes),
        Err(ReadFault::Failed) => Err(DossierFault::ReadFault),
        Err(ReadFault::TooLong) => Err(DossierFault::TooLong),
        Err(ReadFault::OutOfMemory) => Err(DossierFault::OutOfMemory),
    }
}

/// The season's fault as the dossier's.
pub(crate) fn season_error(fault: SeasonFault) -> DossierFault
    ensures { result ≡ season_error fault }
{
    match fault {
        SeasonFault::OutOfMemory => DossierFault::OutOfMemory,
        _ => DossierFault::Season(fault),
    }
}

/// The fault of published texts as the dossier's.
pub(crate) fn papers_error(fault: TextFault) -> DossierFault
    ensures { result ≡ papers_error fault }
{
    match fault {
        TextFault::Line(line) => DossierFault::Published { line },
        TextFault::OutOfMemory => DossierFault::OutOfMemory,
    }
}

/// The requests that the body of their section spells, or its first fault: it is no UTF-8, or a row is no request.
pub(crate) fn read_requests(alloc: Global, body: &[u8]) -> Result<Script, SeasonFault>
    ensures value { IfOk result (λ script. IsScript body.now script) }
    ensures fault { IfErr result (λ fault. IsRequestsError body.now fault) }
{
    if std::str::from_utf8(body).is_err() {
        return Err(SeasonFault::NotUtf8);
    }
    match read_script(alloc, body) {
        Ok(script) => Ok(script),
        Err(ScriptFault::BadRequest { row }) => Err(SeasonFault::BadRequest { row }),
        Err(ScriptFault::OutOfMemory) => Err(SeasonFault::OutOfMemory),
    }
}

/// The texts that the requests of a season publish, or the line of their fault.
pub(crate) fn read_papers(
    alloc: Global,
    season: &Season,
    script: &[Request],
    published: &[u8],
) -> Result<Papers, TextFault>
    requires { length published.now ≤ most_bundle_bytes }
    ensures value { IfOk result (λ papers. AreDuePapers season.now.matrix
        season.now.register.people season.now.rounds script.now published.now papers) }
    ensures fault { IfErr result (λ fault. IsTextFault (AreDuePapers season.now.matrix
        season.now.register.people season.now.rounds script.now) published.now fault) }
{
    // These calls show that texts of the codes of the matrix and of the people of the register can be read.
    codes_are_spelled(&season.matrix);
    let programmes = season.matrix.count();
    let _ = season.register.people();
    let cuts = accepted_cuts(season.rounds, script);
    let dues = due_texts(alloc, season.rounds, programmes, cuts)?;
    take_all(alloc, season, dues.as_slice(), published)
}
