// A dossier, read from a source.
ghost use Rattle.std.specs.Prelude.{◌≡◌, ◌*◌, length, min};
ghost use Rattle.dossier_file.specs.Due.{cuts_accepted};
ghost use Rattle.dossier_file.specs.Kept.{HasTexts, NamesOnce, NamesOnce-prop};

use crate::content::{papers_error, read_bytes, read_papers, read_requests, season_error};
use crate::fault::DossierFault;
use crate::papers::{ListReads, Papers, RoundReads};
use crate::splitting::split_at_titles;
use office_base::Source;
use publish::{FinalRead, TextFault};
use request_rows::Script;
use season_file::Season;
use std::alloc::Global;

/// A season, its requests, and what was published of it: for each accepted cut the round and a list for each programme, or the
/// final admissions for the cut of the last window.
#[derive(Drop)]
pub struct Dossier {
    pub season: Season,
    pub script: Script,
    pub rounds: RoundReads,
    pub lists: ListReads,
    /// The final admissions, exactly where the last window was cut.
    pub last: Option<FinalRead>,
    pub ghost texts: { ∥ HasTexts season.matrix season.register.people season.rounds script rounds lists last ∥₁ },
    pub ghost whole_rounds: { length rounds ≡ min season.rounds (cuts_accepted season.rounds 0 script) },
    pub ghost whole_lists: { length lists ≡ length rounds * length season.matrix.programmes },
    pub ghost once: { NamesOnce lists } by { NamesOnce-prop lists },
}

impl Dossier {
    ghost use Rattle.std.specs.Prelude.{◌≤◌, length, IfOk, IfErr, IsErrOf};
    ghost use Rattle.office_base.specs.Limits.{most_bundle_bytes};
    ghost use Rattle.office_base.specs.Outside.{Rose};
    ghost use Rattle.text_readers.specs.Reading.{IsTextFault};
    ghost use Rattle.dossier_file.specs.Papers.{AreDuePapers};
    ghost use Rattle.dossier_file.specs.Dossier.{GaveDossier, GaveDossierFault, IsBytesFault, IsDossier, papers_of};

    /// The dossier that the bytes are which a source gives up to its end, or their first fault.
    pub fn read<S: Source>(alloc: Global, source: &mut S) -> Result<Dossier, DossierFault>
        ensures value { IfOk result (λ dossier.
            GaveDossier (S.left source.old) (S.left source.new) dossier) }
        ensures fault { IfErr result (λ fault.
            GaveDossierFault (S.left source.old) (S.left source.new) fault) }
        ensures cause { IsErrOf result DossierFault.ReadFault
            → Rose (S.faults source.old) (S.faults source.new) }
        ensures count { S.faults source.old ≤ S.faults source.new }
        ensures steady { ¬ IsErrOf result DossierFault.ReadFault
            → S.faults source.new ≡ S.faults source.old }
    {
        let bytes = read_bytes(alloc, source)?;
        Dossier::of_bytes(alloc, bytes.as_slice())
    }

    /// Returns the dossier that bytes are, or their first fault, which is never `ReadFault` or `TooLong`.
    pub fn of_bytes(alloc: Global, bytes: &[u8]) -> Result<Dossier, DossierFault>
        requires { length bytes.now ≤ most_bundle_bytes }
        ensures value { IfOk result (λ dossier. IsDossier bytes.now dossier) }
        ensures fault { IfErr result (λ fault. IsBytesFault bytes.now fault) }
    {
        let Some(parts) = split_at_titles(bytes) else {
            return Err(DossierFault::NoSection);
        };
        let season = match Season::from_text(alloc, parts.bundle) {
            Ok(season) => season,
            Err(fault) => return Err(season_error(fault)),
        };
        let script = match read_requests(alloc, parts.requests) {
            Ok(script) => script,
            Err(fault) => return Err(season_error(fault)),
        };
        match read_papers(alloc, &season, script.as_slice(), parts.published) {
            Ok(papers) => Ok(Dossier::with_papers(season, script, papers)),
            Err(fault) => Err(papers_error(fault)),
        }
    }

    /// Returns the dossier of a season and requests with these published texts, or the line of their fault.
    pub fn of_texts(
        alloc: Global,
        season: Season,
        script: Script,
        published: &[u8],
    ) -> Result<Dossier, TextFault>
        requires { length published.now ≤ most_bundle_bytes }
        ensures season { IfOk result (λ dossier. dossier.season ≡ season) }
        ensures script { IfOk result (λ dossier. dossier.script ≡ script) }
        ensures papers { IfOk result (λ dossier. AreDuePapers season.matrix
            season.register.people season.rounds script published.now (papers_of dossier)) }
        ensures fault { IfErr result (λ fault. IsTextFault (AreDuePapers season.matrix
            season.register.people season.rounds script) published.now fault) }
    {
        match read_papers(alloc, &season, script.as_slice(), published) {
            Ok(papers) => Ok(Dossier::with_papers(season, script, papers)),
            Err(fault) => Err(fault),
        }
    }

    /// The dossier of a season, requests and the texts that these publish.
    fn with_papers(season: Season, script: Script, papers: Papers) -> Dossier
        requires { HasTexts season.matrix season.register.people season.rounds
            script papers.rounds papers.lists papers.last }
        ensures season { result.season ≡ season }
        ensures script { result.script ≡ script }
        ensures papers { papers_of result ≡ papers }
    {
        let Papers {
            rounds,
            lists,
            last,
        } = papers;
        Dossier {
            season,
            script,
            rounds,
            lists,
            last,
        }
    }
}
