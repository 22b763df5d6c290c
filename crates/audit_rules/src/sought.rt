// What each candidate seeks, and whether their seat in the round's text is of it.
ghost use Rattle.std.specs.Prelude.{◌≡◌, ◌<◌, ◌≤◌, ◌↔◌, IfNone, IfSome, IsSome, IsTrue, Some, false, is_some, length, option_map, true};
ghost use Rattle.allocations.specs.Fair.{IsOwn};
ghost use Rattle.allocations.specs.Market.{place_of};
ghost use Rattle.office_base.specs.declared.seat.Seat.{Seat as AnySeat};
ghost use Rattle.season_facts.specs.Season.{facts_of};
ghost use Rattle.round_options.specs.Options.{holds};
ghost use Rattle.seeks.specs.Seek.{AreBelow, seek_leaves};
ghost use Rattle.audit_rules.specs.Cut.{HasStayed, IsFirstWithout, IsSought, IsUnsought, OfEach};
ghost use Rattle.audit_rules.specs.AtCut.{IsAtCut, Setting};
ghost use Rattle.audit_rules.specs.Stands.{seek_by};

use crate::stand::Stand;
use office_base::{CandId, ProgId, Seat};
use round_options::next_seek;
use season_file::Season;
use seat_matrix::Matrix;
use seeks::{Seek, is_sought};

/// Returns the place of a programme on a list, counted from 0, or the length of the list if the programme is not on it.
/// It is a copy of the function of `cut_arrays`, so that an audit calls nothing of the office here.
pub fn place_of(list: &[ProgId], prog: ProgId) -> usize
    ensures place { result ≡ place_of list.now prog.0 }
    ensures within { result ≤ length list.now }
{
    for (place, other) in list.iter().enumerate() {
        if *other == prog {
            return place;
        }
    }
    list.len()
}

/// Returns what a candidate with this list seeks at a cut.
pub fn seek_of(list: &[ProgId], stand: &Stand) -> Seek
    requires short { length list.now ≤ 1000 }
    requires seated { holds stand.now.standing ≡ true → IsSome stand.now.seat }
    ensures { result ≡ seek_by list.now stand.now }
{
    match stand.seat {
        Some(seat) => next_seek(stand.standing, Some(place_of(list, seat.prog) as u16)),
        None => next_seek(stand.standing, None),
    }
}

/// The programme of the seat, where the candidate does not seek it.
fn unsought(matrix: &Matrix, list: &[ProgId], stand: &Stand, seat: Option<Seat>) -> Option<ProgId>
    requires short { length list.now ≤ 1000 }
    requires seated { holds stand.now.standing ≡ true → IsSome stand.now.seat }
    requires own { (held : AnySeat) → stand.now.seat ≡ Some held
        → place_of list.now held.prog.0 < length list.now }
    requires below { AreBelow (length matrix.now.programmes) list.now }
    ensures some { IfSome result (λ prog.
        (IsOwn (seek_leaves matrix.now (seek_by list.now stand.now) list.now) seat → ⊥)
        × (option_map (λ given. given.prog) seat ≡ Some prog)) }
    ensures none { IfNone result
        (IsOwn (seek_leaves matrix.now (seek_by list.now stand.now) list.now) seat) }
{
    let seat = seat?;
    if is_sought(matrix, seek_of(list, stand), list, seat.prog) {
        None
    } else {
        Some(seat.prog)
    }
}

/// The first candidate whose seat is none that was sought, with its programme.
pub fn first_unsought(
    season: &Season,
    matrix: &Matrix,
    stands: &[Stand],
    seats: &[Option<Seat>],
) -> Option<(ProgId, CandId)>
    ghost at: { Setting }
    requires { IsAtCut (facts_of season.now) at matrix.now stands.now seats.now }
    ensures some { IfSome result (λ found.
        IsUnsought (facts_of season.now) at.papers at.state found.0 found.1) }
    ensures none { IfNone result
        (OfEach (IsSought (facts_of season.now) at.papers at.state) (facts_of season.now).people) }
{
    for (k, person) in season.register.people().iter().enumerate() {
        let list = season.choices.list_near(k, person.id);
        if let Some(prog) = unsought(matrix, list, &stands[k], seats[k]) {
            return Some((prog, person.id));
        }
    }
    None
}

/// Returns the first candidate whose standing is freeze, float or slide and who has no seat.
pub fn first_fallen(
    season: &Season,
    matrix: &Matrix,
    stands: &[Stand],
    seats: &[Option<Seat>],
) -> Option<CandId>
    ghost at: { Setting }
    requires { IsAtCut (facts_of season.now) at matrix.now stands.now seats.now }
    ensures some { IfSome result (λ cand. IsFirstWithout (HasStayed (facts_of season.now)
        at.papers at.state) (facts_of season.now).people cand) }
    ensures none { IfNone result
        (OfEach (HasStayed (facts_of season.now) at.papers at.state) (facts_of season.now).people) }
{
    let _ = matrix;
    for (k, person) in season.register.people().iter().enumerate() {
        if stands[k].standing.holds() && seats[k].is_none() {
            return Some(person.id);
        }
    }
    None
}
