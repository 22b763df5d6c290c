// The line of what the register has of a candidate.
ghost use Rattle.std.specs.Prelude.{◌≡◌, ◌<◌, ◌++◌, IfOk, OnOk};
ghost use Rattle.std.specs.List.{flat_map};
ghost use Rattle.reply_texts.specs.Replies.{letter_if, place_after, place_word, register_head, register_line, traits_word};

use crate::refusals::{push_named, push_numbered};
use office_base::{OutOfMemory, Person, Place, Text, TraitSet};
use office_text::{category_name, letter_of, push_number};
use std::alloc::Global;

/// Returns the line of what the register has of a candidate.
pub(crate) fn register_text(alloc: Global, person: &Person) -> Result<Text, OutOfMemory>
    ensures { IfOk result (λ text. text ≡ register_line person.now) }
{
    let mut out = Text::new(alloc);
    push_head(&mut out, person)?;
    push_places(&mut out, &person.places)?;
    out.extend_from_slice(b"\n")?;
    Ok(out)
}

/// Puts what comes before the places.
fn push_head(out: &mut Text, person: &Person) -> Result<(), OutOfMemory>
    ensures { OnOk result (out.new ≡ out.old ++ register_head person.now) }
{
    push_numbered(out, b"register ", person.id.0)?;
    push_named(out, b" ", category_name(person.category))?;
    out.extend_from_slice(b" ")?;
    push_traits(out, person.traits)
}

/// Puts places, each behind a space.
fn push_places(out: &mut Text, places: &[Place]) -> Result<(), OutOfMemory>
    ensures { OnOk result (out.new ≡ out.old ++ flat_map place_after places.now) }
{
    for place in places {
        out.extend_from_slice(b" ")?;
        push_place(out, *place)?;
    }
    Ok(())
}

/// Puts how a set of traits is spelled: their letters in order, or a dash for none.
pub fn push_traits(out: &mut Text, traits: TraitSet) -> Result<(), OutOfMemory>
    ensures { OnOk result (out.new ≡ out.old ++ traits_word traits) }
{
    if traits.0 == 0 {
        return out.extend_from_slice(b"-");
    }
    for t in 0..6 {
        push_letter(out, traits, t)?;
    }
    Ok(())
}

/// Puts the letter of a trait if the set has it.
fn push_letter(out: &mut Text, traits: TraitSet, t: u8) -> Result<(), OutOfMemory>
    requires { t < 6 }
    ensures { OnOk result (out.new ≡ out.old ++ letter_if traits t) }
{
    if traits.0 & (1 << t) != 0 {
        out.push(letter_of(t))?;
    }
    Ok(())
}

/// Puts how the register spells a place; a dash where there is none.
pub fn push_place(out: &mut Text, place: Place) -> Result<(), OutOfMemory>
    ensures { OnOk result (out.new ≡ out.old ++ place_word place) }
{
    match place {
        Place::Absent => out.extend_from_slice(b"-"),
        Place::Common(number) => push_number(out, number),
        Place::Relaxed(number) => {
            push_number(out, number)?;
            out.extend_from_slice(b"R")
        }
    }
}
