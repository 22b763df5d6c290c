// How the fields of generated rows are spelled.
ghost use Rattle.std.specs.Prelude.{◌≡◌, ◌<◌, ◌∷◌, ◌++◌, OnOk};
ghost use Rattle.std.specs.Fmt.{decimal};
ghost use Rattle.season_generator.specs.Bundle.{programme_code, eight_digits, place_field, traits_name};

use itoa::Buffer;
use office_base::{OutOfMemory, Text};
use office_text::push_number;

/// The text of a set of the traits of women and of persons with disabilities.
pub(crate) fn traits_name(women: bool, disabled: bool) -> &'static str
    ensures { result.now ≡ traits_name women disabled }
{
    match (women, disabled) {
        (false, false) => "-",
        (true, false) => "W",
        (false, true) => "D",
        (true, true) => "WD",
    }
}

/// Puts a number in eight digits.
#[tactic(auto, using(crate::proofs::SpellingLemmas::eight_at_most))]
pub(crate) fn push_eight_digits(out: &mut Text, number: u32) -> Result<(), OutOfMemory>
    requires { number < 100000000 }
    ensures { OnOk result (out.new ≡ out.old ++ eight_digits number) }
{
    let mut buffer = Buffer::new();
    let digits = buffer.format(number).as_bytes();
    let zeros = "00000000".as_bytes();
    out.extend_from_slice(&zeros[digits.len()..])?;
    out.extend_from_slice(digits)
}

/// Puts the field of a place, after a comma.
pub(crate) fn push_place(out: &mut Text, place: u32, relaxed: bool) -> Result<(), OutOfMemory>
    ensures { OnOk result (out.new ≡ out.old ++ place_field place relaxed) }
{
    out.extend_from_slice(b",")?;
    push_number(out, place)?;
    if relaxed {
        out.extend_from_slice(b"R")?;
    }
    Ok(())
}

/// Puts the code of a programme.
pub(crate) fn push_code(out: &mut Text, programme: u32) -> Result<(), OutOfMemory>
    requires { programme < 100 }
    ensures { OnOk result (out.new ≡ out.old ++ programme_code programme) }
{
    let tens = b'0' + (programme / 10) as u8;
    let ones = b'0' + (programme % 10) as u8;
    out.extend_from_slice(&[b'P', tens, ones])
}

/// Puts a comma and a number.
pub(crate) fn push_field(out: &mut Text, number: u32) -> Result<(), OutOfMemory>
    ensures { OnOk result (out.new ≡ out.old ++ 44 ∷ decimal number) }
{
    out.extend_from_slice(b",")?;
    push_number(out, number)
}
