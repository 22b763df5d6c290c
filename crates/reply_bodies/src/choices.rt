// The object of a choice list.
ghost use Rattle.std.specs.Prelude.{◌≡◌, ◌<◌, IfOk, length};
ghost use Rattle.std.specs.List.{AllByRecursion};
ghost use Rattle.serde_json.specs.View.{view};
ghost use Rattle.reply_bodies.specs.Bodies.{choices_data, codes_data};

use crate::texts::code_value;
use office_base::{CandId, OutOfMemory, ProgId};
use seat_matrix::Matrix;
use serde_json::{Value, json};
use std::alloc::Global;

/// Returns the choice list of a candidate, whose programmes are of the matrix.
pub(crate) fn choices_value(
    alloc: Global,
    matrix: &Matrix,
    cand: CandId,
    progs: &[ProgId],
) -> Result<Value, OutOfMemory>
    requires { AllByRecursion (λ prog. prog.0 < length matrix.now.programmes) progs.now }
    ensures { IfOk result (λ value. view value ≡ choices_data matrix.now cand.0 progs.now) }
{
    let codes = codes_value(alloc, matrix, progs)?;
    let cand = cand.0;
    Ok(json!(in alloc; {"cand": cand, "programmes": &codes, "reply": "choices"})?)
}

/// Returns the codes of programmes, which are of the matrix.
fn codes_value(alloc: Global, matrix: &Matrix, progs: &[ProgId]) -> Result<Value, OutOfMemory>
    requires { AllByRecursion (λ prog. prog.0 < length matrix.now.programmes) progs.now }
    ensures { IfOk result (λ value. view value ≡ codes_data matrix.now progs.now) }
{
    let mut codes = Vec::new(alloc);
    for prog in progs {
        codes.push(code_value(alloc, matrix, *prog)?)?;
    }
    Ok(Value::from(codes))
}
