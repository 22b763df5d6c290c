// Texts of bytes as values.
ghost use Rattle.std.specs.Prelude.{◌≡◌, ◌<◌, IfOk, length};
ghost use Rattle.std.specs.Str.{IsAscii};
ghost use Rattle.serde_json.specs.Data.{string};
ghost use Rattle.serde_json.specs.View.{view};
ghost use Rattle.published_texts.specs.Texts.{IsAnswerOf, code_in};
ghost use Rattle.reply_bodies.specs.Bodies.{code};
ghost use Rattle.reply_bodies.specs.Plain.{ArePlainCodes, HasPlainCode};

use office_base::{OutOfMemory, ProgId};
use reasons::WhyAnswer;
use seat_matrix::Matrix;
use serde_json::{Value, json};
use std::alloc::Global;

/// Returns the value of a text, which is all ASCII.
pub(crate) fn text_value(alloc: Global, bytes: &[u8]) -> Result<Value, OutOfMemory>
    requires { IsAscii bytes.now }
    ensures { IfOk result (λ value. view value ≡ string bytes.now) }
{
    let Ok(text) = str::from_utf8(bytes) else {
        unreachable!("ASCII is text")
    };
    Ok(json!(in alloc; text)?)
}

/// Returns the value of the code of a programme, which is of the matrix.
pub(crate) fn code_value(alloc: Global, matrix: &Matrix, prog: ProgId) -> Result<Value, OutOfMemory>
    requires { prog.0 < length matrix.now.programmes }
    ensures { IfOk result (λ value. view value ≡ code matrix.now prog.0) }
{
    let code = matrix.code(prog);
    text_value(alloc, code.bytes())
}

/// Codes of programmes are all ASCII.
pub(crate) fn codes_are_ascii(matrix: &Matrix, prog: ProgId)
    requires { prog.0 < length matrix.now.programmes }
    ensures { IsAscii (code_in matrix.now prog.0) }
{
    let code = matrix.code(prog);
    let _ = code.bytes();
}

/// Shows that the codes of all programmes are ASCII. It reads each of them.
pub(crate) fn all_codes_are_ascii(matrix: &Matrix)
    ensures { ArePlainCodes matrix.now }
{
    for number in 0..matrix.count() {
        codes_are_ascii(matrix, ProgId(number));
    }
}

/// Shows that the codes that an answer names are all ASCII.
pub(crate) fn answers_are_ascii(matrix: &Matrix, answer: &WhyAnswer)
    requires { IsAnswerOf matrix.now answer.now }
    ensures { HasPlainCode matrix.now answer.now }
{
    if let WhyAnswer::Better(held) = answer {
        codes_are_ascii(matrix, *held);
    }
}
