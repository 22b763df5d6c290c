// The reader of a programme's list.
ghost use Rattle.std.specs.Prelude.{◌≡◌, ◌<◌, ◌^◌, [], IfOk, IfErr, IsErrOf, length};
ghost use Rattle.text_readers.specs.Reading.{IsTextFault};
ghost use Rattle.list_texts.specs.ListLines.{lines_text};
ghost use Rattle.list_texts.specs.ListReader.{AreKnown, KeepsList};
ghost use Rattle.list_texts.specs.Listing.{IsListText, step_kinds};

use crate::list_reader::ListReader;
use crate::list_stage::ListStage;
use office_base::{ALL_STEPS, Pairs, People, ProgId, STEP_COUNT};
use programme_lists::{Programme, StepList};
use rank_lists::Register;
use season_file::Season;
use seat_matrix::Matrix;
use std::alloc::Global;
use std::collections::BTreeSet;
use text_readers::{TextFault, codes_are_spelled, read_lines, small_people};

/// Holds the list of a programme as it was read. Seats and candidates are the written ones, and the admitted are those
/// of the register with the written ids.
#[derive(Drop)]
pub struct ListRead {
    pub round: u16,
    pub prog: ProgId,
    pub programme: Programme,
}

/// Returns the list that a text spells, or the line of its fault. If the matrix has no programme, no text spells a list,
/// and the fault is the first line.
pub fn read_list(alloc: Global, season: &Season, text: &[u8]) -> Result<ListRead, TextFault>
    ensures value { IfOk result (λ read.
        IsListText season.now.matrix season.now.register.people text.now read) }
    ensures fault { IfErr result (λ fault. 0 < length season.now.matrix.programmes
        → IsTextFault (IsListText season.now.matrix season.now.register.people) text.now fault) }
    ensures empty { length season.now.matrix.programmes ≡ 0 → IsErrOf result (TextFault.Line 1) }
{
    if season.matrix.count() == 0 {
        return Err(TextFault::Line(1));
    }
    let mut reader = begin(alloc, &season.matrix, &season.register);
    match read_lines(&mut reader, text) {
        Ok(()) => Ok(ListRead {
            round: reader.number,
            prog: reader.prog,
            programme: programme_of(reader.steps),
        }),
        Err(fault) => Err(fault),
    }
}

/// Returns a reader at the beginning of a text.
fn begin<'a>(alloc: Global, matrix: &'a Matrix, register: &'a Register) -> ListReader<'a>
    requires { 0 < length matrix.now.programmes }
    ensures stage { result.stage ≡ ListStage.Head }
    ensures matrix { result.matrix.now ≡ matrix.now }
    ensures register { result.register.now ≡ register.now }
    ensures kinds { result.kinds.now ≡ step_kinds }
    ensures keeps { KeepsList result }
{
    are_known(matrix, register);
    ListReader {
        alloc,
        matrix,
        register,
        stage: ListStage::Head,
        number: 0,
        prog: ProgId(0),
        kinds: &ALL_STEPS,
        steps: Vec::new(alloc),
        admitted: People::new(alloc),
        pairs: Pairs::new(alloc),
        used: BTreeSet::new(alloc),
    }
}

/// Shows that the codes of a matrix and the people of a register are distinct.
fn are_known(matrix: &Matrix, register: &Register)
    requires { 0 < length matrix.now.programmes }
    ensures { AreKnown matrix.now register.now.people }
{
    codes_are_spelled(matrix);
    let _ = small_people(register);
    let _ = matrix.count();
    let _ = register.people();
}

/// Returns the programme of a list for each step.
fn programme_of(steps: Vec<StepList>) -> Programme
    requires { length steps.items ≡ length step_kinds }
    ensures { result.steps ≡ steps.items }
{
    match <[StepList; STEP_COUNT]>::try_from(steps) {
        Ok(steps) => Programme { steps },
        Err(_) => unreachable!("a list was read for each step"),
    }
}
