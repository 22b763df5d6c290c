// The readers of rounds and of final admissions.
ghost use Rattle.std.specs.Prelude.{◌<◌, ◌+◌, ◌^◌, IfOk, IfErr, length};
ghost use Rattle.text_readers.specs.Parts.{AreSmall};
ghost use Rattle.text_readers.specs.Reading.{IsTextFault};
ghost use Rattle.publish.specs.Rows.{IsFinalText, IsRoundText, IsRowsText};

use crate::rows::RowsReader;
use crate::sort::Sort;
use crate::stage::Stage;
use kept_rows::AllotRows;
use office_base::Person;
use season_file::Season;
use seat_matrix::Matrix;
use std::alloc::Global;
use text_readers::{TextFault, codes_are_spelled, read_lines, small_people};

/// Holds a round as it was read: its number, and its rows in the order of the register.
#[derive(Drop)]
pub struct RoundRead {
    pub round: u16,
    pub rows: AllotRows,
}

/// Holds final admissions as they were read, in the order of the register. Their round is the number of rounds plus 1.
#[derive(Drop)]
pub struct FinalRead {
    pub rows: AllotRows,
}

/// Returns the round that a text spells, or the line of its fault.
pub fn read_round(alloc: Global, season: &Season, text: &[u8]) -> Result<RoundRead, TextFault>
    ensures value { IfOk result (λ read.
        IsRoundText season.now.matrix season.now.register.people text.now read) }
    ensures fault { IfErr result (λ fault.
        IsTextFault (IsRoundText season.now.matrix season.now.register.people) text.now fault) }
{
    let people = small_people(&season.register);
    match read_rows(alloc, &season.matrix, people, Sort::Round, 0, text) {
        Ok((round, rows)) => Ok(RoundRead { round, rows }),
        Err(fault) => Err(fault),
    }
}

/// Returns the final admissions that a text spells, or the line of its fault.
pub fn read_final(alloc: Global, season: &Season, text: &[u8]) -> Result<FinalRead, TextFault>
    ensures value { IfOk result (λ read. IsFinalText season.now.matrix
        season.now.register.people (season.now.rounds + 1) text.now read) }
    ensures fault { IfErr result (λ fault. IsTextFault (IsFinalText season.now.matrix
        season.now.register.people (season.now.rounds + 1)) text.now fault) }
{
    let people = small_people(&season.register);
    let known = season.rounds + 1;
    match read_rows(alloc, &season.matrix, people, Sort::Final, known, text) {
        Ok((_, rows)) => Ok(FinalRead { rows }),
        Err(fault) => Err(fault),
    }
}

/// Returns the number of the round and the rows that a text spells, or the line of its fault.
fn read_rows(
    alloc: Global,
    matrix: &Matrix,
    people: &[Person],
    sort: Sort,
    known: u16,
    text: &[u8],
) -> Result<(u16, AllotRows), TextFault>
    requires small { AreSmall people.now }
    requires few { length people.now < 2 ^ 31 }
    ensures value { IfOk result (λ read.
        IsRowsText sort matrix.now people.now known text.now (read.0, read.1)) }
    ensures fault { IfErr result (λ fault.
        IsTextFault (IsRowsText sort matrix.now people.now known) text.now fault) }
{
    codes_are_spelled(matrix);
    let mut reader = RowsReader {
        matrix,
        people,
        sort,
        stage: Stage::Head,
        number: known,
        left: 0,
        rows: AllotRows::new(alloc),
    };
    read_lines(&mut reader, text)?;
    Ok((reader.number, reader.rows))
}
