// What an audit finds of bytes.
ghost use Rattle.std.specs.Prelude.{◌≡◌, ◌≤◌, IfOk, IfErr, length};
ghost use Rattle.office_base.specs.Limits.{most_bundle_bytes};
ghost use Rattle.dossier_file.specs.Dossier.{HasDossierFault, IsDossier};
ghost use Rattle.dossier_file.specs.Special.{IsSpecialCut};
ghost use Rattle.dossier_file.specs.declared.fault.DossierFault.TheVariants.{OutOfMemory as NoDossierMemory, Published};
ghost use Rattle.audit_rules.specs.declared.verdict.Verdict.TheVariants.{Sound};
ghost use Rattle.special_audit.specs.Found.{HasVerdict, IsFollowed, IsFound, IsFoundFault};
ghost use Rattle.special_audit.specs.declared.found.FoundFault.TheVariants.{Dossier as BadDossier};
ghost use Rattle.std.specs.Prelude.{ℕ, List};

use crate::special::{SpecialError, special_dossier};
use audit_rules::Verdict;
use dossier_file::{Dossier, DossierFault, SpecialParts, special_parts};
use office_base::OutOfMemory;
use season_audit::audit;
use std::alloc::Global;

/// What an audit finds.
#[derive(Drop)]
pub enum Found {
    /// The verdict on a season's papers. Either no special round is behind them, or one of their clauses is broken and nothing
    /// behind them was looked at.
    OfSeason {
        dossier: Dossier,
        verdict: Verdict,
    },
    /// No clause of a season's papers is broken in so many rounds, and the verdict on the special round behind them.
    OfSpecial {
        dossier: Dossier,
        rounds: u16,
        special: Dossier,
        verdict: Verdict,
    },
}

/// Says why an audit finds no papers. Nothing is left behind.
#[derive(Clone, Copy, Debug, PartialEq, Eq, thiserror::Error)]
pub enum FoundFault {
    /// The bytes are no dossier, or those before the line `[lists]` are none.
    #[error("{0}")]
    Dossier(DossierFault),
    /// The papers of the special round have a fault.
    #[error("{0}")]
    Special(SpecialError),
}

impl From<OutOfMemory> for FoundFault {
    ghost from_gives = { λ _ fault. fault ≡ BadDossier NoDossierMemory };

    fn from(_: OutOfMemory) -> Self {
        FoundFault::Dossier(DossierFault::OutOfMemory)
    }
}

/// Returns what an audit finds of bytes, or their first fault, which is never that the source failed.
/// Bytes that are a dossier are audited as one. If a line of their texts is none that is due, and the sections of a special
/// round follow, then the bytes before these are the dossier; if no clause of it is broken, the special round is audited.
/// It fails only when memory runs out, or with the fault.
pub fn find(alloc: Global, bytes: &[u8]) -> Result<Found, FoundFault>
    requires { length bytes.now ≤ most_bundle_bytes }
    ensures value { IfOk result (IsFound bytes.now) }
    ensures fault { IfErr result (IsFoundFault bytes.now) }
{
    let fault = match Dossier::of_bytes(alloc, bytes) {
        Ok(dossier) => return season_found(alloc, dossier),
        Err(fault) => fault,
    };
    let DossierFault::Published { line } = fault else {
        return Err(FoundFault::Dossier(fault));
    };
    match special_parts(bytes) {
        Some(parts) => found_behind(alloc, bytes, line, parts),
        None => Err(FoundFault::Dossier(fault)),
    }
}

/// Returns the verdict on a dossier.
fn judged(alloc: Global, dossier: &Dossier) -> Result<Verdict, OutOfMemory>
    ensures { IfOk result (HasVerdict dossier.now) }
{
    audit(alloc, dossier)
}

/// Returns the verdict on a dossier alone.
fn season_found(alloc: Global, dossier: Dossier) -> Result<Found, FoundFault>
    ensures value { IfOk result (λ found. (bytes : List ℕ)
        → IsDossier bytes dossier → IsFound bytes found) }
    ensures fault { IfErr result (λ fault. fault ≡ BadDossier NoDossierMemory) }
{
    let verdict = judged(alloc, &dossier)?;
    Ok(Found::OfSeason { dossier, verdict })
}

/// Returns what an audit finds of bytes that are cut into these parts.
fn found_behind(
    alloc: Global,
    bytes: &[u8],
    line: u32,
    parts: SpecialParts<'_>,
) -> Result<Found, FoundFault>
    requires short { length bytes.now ≤ most_bundle_bytes }
    requires more { HasDossierFault bytes.now (Published line) }
    requires cut { IsSpecialCut bytes.now parts.front.now parts.lists.now parts.published.now }
    ensures value { IfOk result (IsFound bytes.now) }
    ensures fault { IfErr result (IsFoundFault bytes.now) }
{
    let dossier = match Dossier::of_bytes(alloc, parts.front) {
        Ok(dossier) => dossier,
        Err(fault) => return Err(FoundFault::Dossier(fault)),
    };
    let verdict = judged(alloc, &dossier)?;
    match verdict {
        Verdict::Sound { rounds } => special_found(alloc, dossier, rounds, bytes, parts),
        Verdict::Broken { .. } => Ok(Found::OfSeason { dossier, verdict }),
    }
}

/// Returns the verdict on the special round behind a dossier of which no clause is broken.
fn special_found(
    alloc: Global,
    dossier: Dossier,
    rounds: u16,
    bytes: &[u8],
    parts: SpecialParts<'_>,
) -> Result<Found, FoundFault>
    requires short { length parts.published.now ≤ most_bundle_bytes }
    requires front { IsDossier parts.front.now dossier }
    requires sound { HasVerdict dossier (Sound rounds) }
    requires followed { IsFollowed bytes.now parts.front.now parts.lists.now parts.published.now }
    ensures value { IfOk result (IsFound bytes.now) }
    ensures fault { IfErr result (IsFoundFault bytes.now) }
{
    let special = match special_dossier(alloc, &dossier, parts.lists, parts.published) {
        Ok(special) => special,
        Err(SpecialError::OutOfMemory) => return Err(FoundFault::from(OutOfMemory)),
        Err(fault) => return Err(FoundFault::Special(fault)),
    };
    let verdict = judged(alloc, &special)?;
    Ok(Found::OfSpecial {
        dossier,
        rounds,
        special,
        verdict,
    })
}
