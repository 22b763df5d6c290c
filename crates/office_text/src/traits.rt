// Sets of traits as they are spelled: the letters W, D, X, S, F and L in this order.
ghost use Rattle.std.specs.Prelude.{◌≡◌, ◌<◌, ◌≤◌, ◌^◌, IfSome, sum_by};
ghost use Rattle.std.specs.Option.{option_map};
ghost use Rattle.office_base.specs.Person.{IsTraitSet};
ghost use Rattle.office_text.specs.Traits.{letter, trait_of, traits_of, read_from};

use office_base::TraitSet;

/// Each letter with the bit that it sets.
const LETTERS: [(u8, u8); 6] = [
    (b'W', 1),
    (b'D', 2),
    (b'X', 4),
    (b'S', 8),
    (b'F', 16),
    (b'L', 32),
];

/// The letter of the trait of this number.
pub fn letter_of(t: u8) -> u8
    requires { t < 6 }
    ensures { result ≡ letter t }
{
    LETTERS[usize::from(t)].0
}

/// The number of the trait of this letter, from 0 to 5.
pub fn trait_number(letter: u8) -> Option<u8>
    ensures value { result ≡ trait_of letter }
    ensures small { IfSome result (λ t. t < 6) }
{
    match letter {
        b'W' => Some(0),
        b'D' => Some(1),
        b'X' => Some(2),
        b'S' => Some(3),
        b'F' => Some(4),
        b'L' => Some(5),
        _ => None,
    }
}

/// The set of traits that a text spells: `-` or nothing for none, else distinct letters in the order of the traits.
pub fn read_traits(text: &[u8]) -> Option<TraitSet>
    ensures value { option_map (λ traits. traits.0) result ≡ traits_of text.now }
    ensures set { IfSome result IsTraitSet }
{
    if let [b'-'] = text {
        return Some(TraitSet(0));
    }
    read_from(&LETTERS, text).map(TraitSet)
}

/// Returns the bits of the letters of a text, which are among those allowed and in their order.
fn read_from(allowed: &[(u8, u8)], text: &[u8]) -> Option<u8>
    requires { sum_by (λ pair. pair.1) allowed.now < 2 ^ 8 }
    ensures value { result ≡ read_from allowed.now text.now }
    ensures most { IfSome result (λ bits. bits ≤ sum_by (λ pair. pair.1) allowed.now) }
{
    match (allowed, text) {
        (_, []) => Some(0),
        ([], _) => None,
        ([(letter, bit), later @ ..], [first, rest @ ..]) => {
            if letter == first {
                Some(bit + read_from(later, rest)?)
            } else {
                read_from(later, text)
            }
        }
    }
}
