// The texts of a dossier that a cut takes.
ghost use Rattle.std.specs.Prelude.{◌≡◌};
ghost use Rattle.audit_rules.specs.Papers.{lists_after, rows_after};
ghost use Rattle.audit_rules.specs.Comes.{told_by};
ghost use Rattle.season_audit.specs.Audit.{NameOnce, papers_in};

use dossier_file::Dossier;
use kept_rows::AllotRow;
use list_texts::ListRead;

/// The rows of the round that follows so many; none where there is no text of it.
pub fn rows_after(dossier: &Dossier, rounds: u16) -> &[AllotRow]
    ensures { result.now ≡ rows_after (papers_in dossier.now) rounds }
{
    match dossier.rounds.as_slice().get(usize::from(rounds)) {
        Some(read) => read.rows.as_slice(),
        None => &[],
    }
}

/// The lists of that round, one for each of so many programmes; fewer where there are not so many.
pub(crate) fn lists_after(dossier: &Dossier, count: u16, rounds: u16) -> &[ListRead]
    ensures lists { told_by result.now ≡ lists_after (papers_in dossier.now) count rounds }
    ensures once { NameOnce result.now }
{
    let lists = dossier.lists.as_slice();
    let from = (usize::from(rounds) * usize::from(count)).min(lists.len());
    let to = (from + usize::from(count)).min(lists.len());
    &lists[from..to]
}
