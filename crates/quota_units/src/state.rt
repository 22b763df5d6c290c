// The states in which candidates live.
ghost use Rattle.std.proofs.Common.{lit≤};
ghost use Rattle.quota_units.specs.Homes.{is_state};
ghost use Rattle.quota_units.specs.Spelled.{state-fits};

use office_base::short_text::{ShortText, Spelling};

/// Two letters from A to Z.
pub(crate) type State = ShortText<StateSpelling, 2>;

/// How a state is spelled.
#[derive(Clone, Copy)]
pub(crate) struct StateSpelling {}

impl Spelling<2> for StateSpelling {
    ghost spells = { is_state };

    ghost fits = { state-fits };

    ghost small = { lit≤ tt };

    fn spells(bytes: &[u8]) -> bool {
        match bytes {
            [first, second] => first.is_ascii_uppercase() && second.is_ascii_uppercase(),
            _ => false,
        }
    }
}
