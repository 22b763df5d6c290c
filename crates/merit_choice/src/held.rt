// The people whom the seats hold, in merit order, each with a mark: whether the protections need the person.
ghost use Rattle.std.specs.Prelude.{◌≡◌, ◌≤◌, ◌<◌, length, vec_len, vec_capacity, MatchOption};
ghost use Rattle.std.specs.List.{insert};
ghost use Rattle.office_base.specs.Person.{IsList};
ghost use Rattle.office_base.specs.StepChoice.{AreRanked};
ghost use Rattle.placements.specs.Demand.{is_within};
ghost use Rattle.merit_choice.specs.Held.{IsLastFree, AreAllSet, IsLeft};
ghost use Rattle.merit_choice.specs.InMerit.{with_person, IsNewTo};
ghost use Rattle.merit_choice.specs.Within.{AreNoneWithin, IsLastWithin};

use office_base::{ListId, Person, TraitSet, better};
use placements::is_within;

/// Returns the place that a new person has among people in merit order. A person who comes after all of them costs
/// one look.
pub(crate) fn place_for(people: &[Person], person: &Person, list: ListId) -> usize
    requires list { IsList list }
    requires ranked { AreRanked list people.now }
    requires new { IsNewTo list people.now person.now }
    ensures within { result ≤ length people.now }
    ensures place { insert people.now result person.now ≡ with_person list person.now people.now }
{
    let count = people.len();
    if count == 0 {
        return 0;
    }
    if better(&people[count - 1], person, list) {
        return count;
    }
    place_among(people, person, list)
}

/// The same place, found by halves.
fn place_among(people: &[Person], person: &Person, list: ListId) -> usize
    requires list { IsList list }
    requires ranked { AreRanked list people.now }
    requires new { IsNewTo list people.now person.now }
    ensures within { result ≤ length people.now }
    ensures place { insert people.now result person.now ≡ with_person list person.now people.now }
{
    let mut low = 0;
    let mut high = people.len();
    while low < high {
        let middle = low + (high - low) / 2;
        if better(&people[middle], person, list) {
            low = middle + 1;
        } else {
            high = middle;
        }
    }
    low
}

/// Puts a new person at the merit place among people, into room that is there. Allocates nothing.
pub fn put_in_order(people: &mut Vec<Person>, person: &Person, list: ListId)
    requires list { IsList list }
    requires ranked { AreRanked list people.old.items }
    requires new { IsNewTo list people.old.items person.now }
    requires room { vec_len people.old < vec_capacity people.old }
    ensures items { people.new.items ≡ with_person list person.now people.old.items }
    ensures room { vec_capacity people.old ≤ vec_capacity people.new }
{
    let at = place_for(people.as_slice(), person, list);
    put(people, at, *person);
}

/// The last of the people whose mark is not set leaves.
pub(crate) fn leave(people: &mut Vec<Person>, marks: &mut Vec<bool>) -> Person
    requires each { vec_len people.old ≡ vec_len marks.old }
    requires some { ¬ AreAllSet marks.old.items }
    ensures left { IsLeft people.old.items marks.old.items result people.new.items marks.new.items }
    ensures room { vec_capacity people.new ≡ vec_capacity people.old }
    ensures marks_room { vec_capacity marks.new ≡ vec_capacity marks.old }
{
    let Some(last) = last_free(marks.as_slice()) else {
        unreachable!("one of the marks is not set")
    };
    marks.remove(last);
    people.remove(last)
}

/// The last place whose mark is not set.
fn last_free(marks: &[bool]) -> Option<usize>
    ensures { MatchOption result (AreAllSet marks.now) (IsLastFree marks.now) }
{
    let mut at = marks.len();
    while at > 0 {
        at -= 1;
        if !marks[at] {
            return Some(at);
        }
    }
    None
}

/// The last place, from this one on, whose mark is set and whose person holds no trait outside the set.
pub(crate) fn last_within(
    people: &[Person],
    marks: &[bool],
    from: usize,
    set: TraitSet,
) -> Option<usize>
    requires { length people.now ≡ length marks.now }
    ensures { MatchOption result (AreNoneWithin set people.now marks.now from)
        (IsLastWithin set people.now marks.now from) }
{
    let mut at = people.len();
    while at > from {
        at -= 1;
        if marks[at] && is_within(people[at].traits, set) {
            return Some(at);
        }
    }
    None
}

/// Puts a value in at a place, into room that is there.
pub(crate) fn put<T: Drop>(items: &mut Vec<T>, at: usize, value: T)
    requires place { at ≤ vec_len items.old }
    requires room { vec_len items.old < vec_capacity items.old }
    ensures items { items.new.items ≡ insert items.old.items at value }
    ensures room { vec_capacity items.old ≤ vec_capacity items.new }
{
    if items.insert(at, value).is_err() {
        unreachable!("there is room")
    }
}
