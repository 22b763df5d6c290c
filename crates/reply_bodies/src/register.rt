// The object of what the register has of a candidate.
ghost use Rattle.std.specs.Prelude.{◌≡◌, IfOk};
ghost use Rattle.serde_json.specs.View.{view};
ghost use Rattle.reply_bodies.specs.Bodies.{place_data, places_data, register_data};

use crate::texts::text_value;
use office_base::{OutOfMemory, Person, Place, Text};
use reply_texts::{category_name, push_place, push_traits};
use serde_json::{Value, json};
use std::alloc::Global;

/// Returns what the register has of a candidate.
pub(crate) fn register_value(alloc: Global, person: &Person) -> Result<Value, OutOfMemory>
    ensures { IfOk result (λ value. view value ≡ register_data person.now) }
{
    let places = places_value(alloc, &person.places)?;
    let mut word = Text::new(alloc);
    push_traits(&mut word, person.traits)?;
    let traits = text_value(alloc, word.as_slice())?;
    let cand = person.id.0;
    let category = category_name(person.category);
    Ok(
        json!(in alloc; {"cand": cand, "category": category, "places": &places, "reply": "register", "traits": &traits})?,
    )
}

/// Returns the places in the merit lists.
fn places_value(alloc: Global, places: &[Place]) -> Result<Value, OutOfMemory>
    ensures { IfOk result (λ value. view value ≡ places_data places.now) }
{
    let mut values = Vec::new(alloc);
    for place in places {
        values.push(place_value(alloc, *place)?)?;
    }
    Ok(Value::from(values))
}

/// Returns a place as the register spells it, or null where there is none.
fn place_value(alloc: Global, place: Place) -> Result<Value, OutOfMemory>
    ensures { IfOk result (λ value. view value ≡ place_data place) }
{
    if place == Place::Absent {
        return Ok(Value::Null);
    }
    let mut text = Text::new(alloc);
    push_place(&mut text, place)?;
    text_value(alloc, text.as_slice())
}
