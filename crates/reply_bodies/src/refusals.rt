// The object of a refusal: one for all, with what it carries under a separate key.
ghost use Rattle.std.specs.Prelude.{◌≡◌, IfOk};
ghost use Rattle.serde_json.specs.Data.{object};
ghost use Rattle.serde_json.specs.View.{view};
ghost use Rattle.reply_bodies.specs.Bodies.{count, refused_data, refused_members, refused_with, word};

use office_base::OutOfMemory;
use office_moves::Refusal;
use reply_texts::{choice_name, standing_name};
use serde_json::{Value, json};
use std::alloc::Global;

/// Returns the object of a refusal that carries nothing.
fn bare(alloc: Global, refusal: Refusal) -> Result<Value, OutOfMemory>
    ensures { IfOk result (λ value. view value ≡ object (refused_members refusal)) }
{
    let name = refusal.name();
    let number = refusal.number();
    Ok(json!(in alloc; {"name": name, "refused": number, "reply": "refused"})?)
}

/// Returns the object of a refusal with what it carries, in its place by the order of keys.
fn detailed(
    alloc: Global,
    refusal: Refusal,
    key: &str,
    detail: &Value,
) -> Result<Value, OutOfMemory>
    ensures { IfOk result (λ value. view value ≡ refused_with refusal key.now (view detail.now)) }
{
    let name = refusal.name();
    let number = refusal.number();
    Ok(json!(in alloc; {"name": name, "refused": number, "reply": "refused", key: detail})?)
}

/// Returns the object of a refusal that carries a number.
fn numbered(alloc: Global, refusal: Refusal, key: &str, n: u32) -> Result<Value, OutOfMemory>
    ensures { IfOk result (λ value. view value ≡ refused_with refusal key.now (count n)) }
{
    let detail = json!(in alloc; n)?;
    detailed(alloc, refusal, key, &detail)
}

/// Returns the object of a refusal that carries a word.
fn worded(alloc: Global, refusal: Refusal, key: &str, name: &str) -> Result<Value, OutOfMemory>
    ensures { IfOk result (λ value. view value ≡ refused_with refusal key.now (word name.now)) }
{
    let detail = json!(in alloc; name)?;
    detailed(alloc, refusal, key, &detail)
}

/// Returns the object of a refusal.
pub(crate) fn refused_value(alloc: Global, refusal: Refusal) -> Result<Value, OutOfMemory>
    ensures { IfOk result (λ value. view value ≡ refused_data refusal) }
{
    match refusal {
        Refusal::Denied { rule } => numbered(alloc, refusal, "rule", u32::from(rule)),
        Refusal::TurnUsed { kept } => worded(alloc, refusal, "kept", choice_name(kept)),
        Refusal::Late { now } => numbered(alloc, refusal, "now", u32::from(now)),
        Refusal::Ahead { now } => numbered(alloc, refusal, "now", u32::from(now)),
        Refusal::Gap { last } => numbered(alloc, refusal, "last", u32::from(last)),
        Refusal::Gone { how } => worded(alloc, refusal, "how", standing_name(how)),
        Refusal::Widening { standing } => {
            worded(alloc, refusal, "standing", choice_name(standing))
        }
        Refusal::NoSuchRound { published } => {
            numbered(alloc, refusal, "published", u32::from(published))
        }
        Refusal::Falling { seats } => numbered(alloc, refusal, "seats", u32::from(seats)),
        Refusal::SeatLimit { total } => numbered(alloc, refusal, "total", total),
        Refusal::UnknownCandidate
        | Refusal::UnknownProgramme
        | Refusal::NoSeat
        | Refusal::TooManyTurns
        | Refusal::NotChosen
        | Refusal::LastWindow
        | Refusal::StepFixed => bare(alloc, refusal),
    }
}
