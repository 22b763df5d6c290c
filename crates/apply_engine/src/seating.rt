// The seats of a round, from the lists of its programmes.
ghost use Rattle.std.specs.Prelude.{◌≡◌, ◌<◌, ◌≤◌, ℕ, List, Option, Some, None, IfOk, length, slice_get};
ghost use Rattle.office_base.specs.CategorySteps.{all_steps};
ghost use Rattle.office_base.specs.declared.seat.Seat.{Seat as AnySeat};
ghost use Rattle.office_base.specs.declared.step.StepKind.{StepKind as AnyStepKind};
ghost use Rattle.apply_engine.specs.Made.{AreGiven, AreInOrder, AreInPlace, AreKept, AreOf, ArePut, AreSeated, AreShown, AreTried, IsPut, IsShownOnce, kept_seat, shown};

use choice_lists::FlatLists;
use office_base::{Listed, OutOfMemory, Person, ProgId, Seat, SeatKind};
use programme_lists::Programme;
use rank_lists::Register;
use rounds::Seats;
use std::alloc::Global;

/// Gives a seat to those admitted.
fn put_seat(seats: &mut [Option<Seat>], register: &Register, seat: Seat, admitted: &[Person])
    requires people { AreOf register.now.people admitted.now }
    requires full { length seats.old ≡ length register.now.people }
    ensures { IsPut register.now.people seat admitted.now seats.old seats.new }
{
    let _people = register.people();
    for person in admitted {
        let Some(at) = register.position(person.id) else {
            unreachable!("whoever is admitted is a candidate of the register")
        };
        seats[at as usize] = Some(seat);
    }
}

/// Gives the seats of a programme to those whom its lists show.
fn put_programme(
    seats: &mut [Option<Seat>],
    register: &Register,
    prog: ProgId,
    programme: &Programme,
)
    requires in_order { AreInOrder programme.now }
    requires of_people { (kind : AnyStepKind)
        → AreOf register.now.people (shown programme.now kind) }
    requires once { IsShownOnce programme.now }
    requires full { length seats.old ≡ length register.now.people }
    ensures { ArePut register.now.people prog.0 (length all_steps) programme.now seats.old
        seats.new }
{
    for list in &programme.steps {
        let seat = Seat {
            prog,
            step: SeatKind::Under(list.kind),
        };
        put_seat(seats, register, seat, list.admitted.as_slice());
    }
}

/// Gives all seats to those whom the lists of the programmes show.
fn put_all(seats: &mut [Option<Seat>], register: &Register, programmes: &[Programme])
    requires shown { AreShown register.now.people programmes.now }
    requires full { length seats.old ≡ length register.now.people }
    requires none { (i : ℕ) (seat : Option AnySeat)
        → slice_get seats.old i ≡ Some seat → seat ≡ None }
    ensures { AreGiven register.now.people programmes.now (length programmes.now) seats.new }
{
    let _people = register.people();
    for (prog, programme) in programmes.iter().enumerate() {
        put_programme(seats, register, ProgId(prog as u16), programme);
    }
}

/// Returns the seat beyond all steps of a person who tried the first so many programmes of this list and is guaranteed
/// a seat of a programme: one of that programme, if it was tried last.
fn kept_seat(list: &[ProgId], tried: u16, sure: Option<ProgId>) -> Option<Seat>
    requires in_place { AreInPlace list.now }
    requires within { tried ≤ length list.now }
    ensures { result ≡ kept_seat list.now tried sure }
{
    let prog = sure?;
    kept_of(list, tried, prog)
}

/// Returns the seat beyond all steps of a programme that is guaranteed, if it was tried last.
fn kept_of(list: &[ProgId], tried: u16, prog: ProgId) -> Option<Seat>
    requires in_place { AreInPlace list.now }
    requires within { tried ≤ length list.now }
    ensures { result ≡ kept_seat list.now tried (Some prog) }
{
    if tried == 0 {
        return None;
    }
    let last = list[usize::from(tried) - 1];
    if last.0 != prog.0 {
        return None;
    }
    Some(Seat {
        prog,
        step: SeatKind::Kept,
    })
}

/// Gives a seat beyond those of all steps to each person without one who is guaranteed a seat of the programme that
/// the person tried last.
fn keep_seats(
    seats: &mut [Option<Seat>],
    lists: &FlatLists<ProgId>,
    guaranteed: &[Option<ProgId>],
    next: &[u16],
)
    requires { AreTried lists.now guaranteed.now next.now seats.old }
    ensures { AreKept lists.now guaranteed.now next.now seats.old seats.new }
{
    for at in 0..seats.len() {
        if let None = seats[at] {
            seats[at] = kept_seat(lists.at(at), next[at], guaranteed[at]);
        }
    }
}

/// The seat of each person of the register: those that the lists of the programmes show, and beyond them those that
/// are kept for persons who are guaranteed one.
pub(crate) fn seats_of(
    alloc: Global,
    register: &Register,
    programmes: &[Programme],
    lists: &FlatLists<ProgId>,
    guaranteed: &[Option<ProgId>],
    next: &[u16],
) -> Result<Seats, OutOfMemory>
    requires shown { AreShown register.now.people programmes.now }
    requires tried { (own : List (Option AnySeat)) → length own ≡ length register.now.people
        → AreTried lists.now guaranteed.now next.now own }
    ensures { IfOk result (λ seats. AreSeated register.now.people programmes.now
        lists.now guaranteed.now next.now seats) }
{
    let mut seats = vec![in alloc; None; register.people().len()]?;
    put_all(&mut seats, register, programmes);
    keep_seats(&mut seats, lists, guaranteed, next);
    Ok(Listed::from_vec(seats))
}
