// What a matrix and a register keep, as the readers need it.
ghost use Rattle.std.specs.Prelude.{◌≡◌, ◌<◌, ◌^◌, length};
ghost use Rattle.text_readers.specs.Parts.{AreSmall, AreSpelled};

use office_base::{Person, ProgId};
use rank_lists::Register;
use seat_matrix::Matrix;

/// Returns the people of a register. Their ids fit 32 bits.
pub fn small_people(register: &Register) -> &[Person]
    ensures same { result.now ≡ register.now.people }
    ensures small { AreSmall result.now }
    ensures few { length result.now < 2 ^ 31 }
{
    register.people()
}

/// Shows that all codes of a matrix are spelled as codes are. It changes nothing.
pub fn codes_are_spelled(matrix: &Matrix)
    ensures { AreSpelled matrix.now }
{
    for prog in 0..matrix.count() {
        let code = matrix.code(ProgId(prog));
        let _ = code.bytes();
    }
}
