// A seek, and what it leaves of a choice list.
ghost use Rattle.std.specs.Prelude.{◌≡◌, ◌<◌, ◌++◌, length, Some, slice_get, slice_index_or, OnOk, OnErr};
ghost use Rattle.seat_matrix.specs.Matrix.{SeatTable};
ghost use Rattle.seeks.specs.Seek.{same_institute, is_left, left_from, seek_leaves, IsWithinList, AreBelow, is_listed};

use office_base::{OutOfMemory, ProgId};
use seat_matrix::Matrix;

/// Which part of a choice list is effective. The number is the place of the candidate's seat in the list, from 0.
#[derive(Clone, Copy, PartialEq, Eq)]
pub enum Seek {
    /// The whole list: the candidate has no seat.
    Whole,
    /// The list up to and with the seat.
    UpTo(u16),
    /// Of the list up to and with the seat, what is at the seat's institute.
    Within(u16),
    /// The seat alone.
    Only(u16),
    /// Nothing: the candidate has left.
    Nothing,
}

/// Returns whether the seek leaves the programme, which is at this place of the list. Allocates nothing.
fn is_left(matrix: &Matrix, seek: Seek, list: &[ProgId], place: usize, prog: ProgId) -> bool
    requires within { IsWithinList list.now seek }
    requires below { AreBelow (length matrix.now.programmes) list.now }
    requires known { prog.0 < length matrix.now.programmes }
    ensures { result ≡ is_left matrix.now seek list.now place prog }
{
    match seek {
        Seek::Whole => true,
        Seek::UpTo(last) => place <= usize::from(last),
        Seek::Within(last) => {
            let seat = usize::from(last);
            place <= seat && matrix.institute(list[seat]).bytes() == matrix.institute(prog).bytes()
        }
        Seek::Only(seat) => place == usize::from(seat),
        Seek::Nothing => false,
    }
}

/// Puts those programmes of a list that a seek leaves after the others, one by one.
fn push_each(
    out: &mut Vec<ProgId>,
    matrix: &Matrix,
    seek: Seek,
    list: &[ProgId],
) -> Result<(), OutOfMemory>
    requires within { IsWithinList list.now seek }
    requires below { AreBelow (length matrix.now.programmes) list.now }
    ensures { OnOk result (out.new.items ≡ out.old.items ++ seek_leaves matrix.now seek list.now) }
{
    for (place, prog) in list.iter().enumerate() {
        if is_left(matrix, seek, list, place, *prog) {
            out.push(*prog)?;
        }
    }
    Ok(())
}

/// Appends what a seek leaves of a list. If memory runs out, a part of it is appended.
pub fn push_left(
    out: &mut Vec<ProgId>,
    matrix: &Matrix,
    seek: Seek,
    list: &[ProgId],
) -> Result<(), OutOfMemory>
    requires within { IsWithinList list.now seek }
    requires below { AreBelow (length matrix.now.programmes) list.now }
    ensures { OnOk result (out.new.items ≡ out.old.items ++ seek_leaves matrix.now seek list.now) }
{
    match seek {
        Seek::Whole => out.extend_from_slice(list)?,
        Seek::UpTo(last) => out.extend_from_slice(&list[..usize::from(last) + 1])?,
        Seek::Within(_) => push_each(out, matrix, seek, list)?,
        Seek::Only(seat) => out.push(list[usize::from(seat)])?,
        Seek::Nothing => {}
    }
    Ok(())
}

/// Returns whether a seek leaves a programme of a list. Allocates nothing.
pub fn is_sought(matrix: &Matrix, seek: Seek, list: &[ProgId], prog: ProgId) -> bool
    requires within { IsWithinList list.now seek }
    requires below { AreBelow (length matrix.now.programmes) list.now }
    ensures { result ≡ is_listed prog.0 (seek_leaves matrix.now seek list.now) }
{
    for (place, other) in list.iter().enumerate() {
        if *other == prog && is_left(matrix, seek, list, place, *other) {
            return true;
        }
    }
    false
}
