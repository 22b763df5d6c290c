// The names of categories, of steps and of choices.
ghost use Rattle.std.specs.Prelude.{◌≡◌};
ghost use Rattle.office_text.specs.Names.{category_name, choice_of, is_named, seat_kind_name, second_name, step_name, step_of};

use office_base::{Category, Choice, OWN_STEPS, SeatKind, StepKind};

/// Returns the name of a category, as it is written.
pub fn category_name(category: Category) -> &'static str
    ensures { result.now ≡ category_name category }
{
    match category {
        Category::Gen => "GEN",
        Category::Ews => "EWS",
        Category::Obc => "OBC",
        Category::Sc => "SC",
        Category::St => "ST",
    }
}

/// Returns the name of a step, as it is written: `D` is that of the seats that categories left unfilled.
pub fn step_name(kind: StepKind) -> &'static str
    ensures { result.now ≡ step_name kind }
{
    match kind {
        StepKind::Open => "OPEN",
        StepKind::Ews => "EWS",
        StepKind::Obc => "OBC",
        StepKind::Sc => "SC",
        StepKind::St => "ST",
        StepKind::Dereserved => "D",
    }
}

/// Returns the name of a kind of seat, as it is written: that of its step, or `KEPT`.
pub fn seat_kind_name(kind: SeatKind) -> &'static str
    ensures { result.now ≡ seat_kind_name kind }
{
    match kind {
        SeatKind::Under(step) => step_name(step),
        SeatKind::Kept => "KEPT",
    }
}

/// Returns a second name of a step, which is read and never written. A step without one has its name once more.
fn second_name(kind: StepKind) -> &'static str
    ensures { result.now ≡ second_name kind }
{
    match kind {
        StepKind::Ews => "GEN-EWS",
        StepKind::Obc => "OBC-NCL",
        _ => step_name(kind),
    }
}

/// Returns whether a text is a name of this step.
pub fn is_named(text: &[u8], kind: StepKind) -> bool
    ensures { result ≡ is_named text.now kind }
{
    text == step_name(kind).as_bytes() || text == second_name(kind).as_bytes()
}

/// Returns the step with seats of its own that a text spells: `OPEN`, `EWS` or `GEN-EWS`, `OBC` or `OBC-NCL`, `SC`, `ST`.
pub fn read_step(text: &[u8]) -> Option<StepKind>
    ensures { result ≡ step_of text.now }
{
    for kind in OWN_STEPS {
        if is_named(text, kind) {
            return Some(kind);
        }
    }
    None
}

/// The choice that a text spells: `freeze`, `float`, `slide`, `withdraw`.
pub fn read_choice(text: &[u8]) -> Option<Choice>
    ensures { result ≡ choice_of text.now }
{
    if text == b"freeze".as_slice() {
        Some(Choice::Freeze)
    } else if text == b"float".as_slice() {
        Some(Choice::Float)
    } else if text == b"slide".as_slice() {
        Some(Choice::Slide)
    } else if text == b"withdraw".as_slice() {
        Some(Choice::Withdraw)
    } else {
        None
    }
}
