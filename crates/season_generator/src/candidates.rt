// The rows of candidates: in the register, and of their choices.
ghost use Rattle.std.specs.Prelude.{◌≡◌, ◌<◌, ◌≤◌, ◌*◌, ◌++◌, OnOk, length};
ghost use Rattle.office_base.specs.Limits.{most_generated};
ghost use Rattle.season_generator.specs.Bundle.{choices_row, choices_text, register_row, register_text};
ghost use Rattle.season_generator.specs.Draws.{state_after};

use crate::draws::Draws;
use crate::profile::Profile;
use crate::spelling::{push_code, push_eight_digits, push_place, traits_name};
use office_base::{OutOfMemory, Text};
use office_text::{category_name, push_number};

/// How many programmes each candidate chooses.
const CHOICES: u32 = 40;

/// Puts the register: the profiles of its candidates are drawn from here on, and `first` and `second` are their places in the
/// lists 1 and 2.
pub(crate) fn push_register(
    out: &mut Text,
    mut draws: Draws,
    first: &[u32],
    second: &[u32],
) -> Result<(), OutOfMemory>
    requires places { length first.now ≡ length second.now }
    requires bound { length first.now ≤ most_generated }
    ensures { OnOk result
        (out.new ≡ out.old ++ register_text (length first.now) draws.state first.now second.now) }
{
    out.extend_from_slice(b"[register]\nid,category,traits,token,m1,m2,m3,m4\n")?;
    for (candidate, place) in first.iter().enumerate() {
        let profile = draws.profile();
        push_registered(
            out,
            candidate as u32 + 1,
            profile,
            *place,
            second[candidate],
        )?;
    }
    Ok(())
}

/// Puts the row of a candidate with this profile.
#[tactic(auto, unfolding(crate::specs::Bundle::register_row))]
fn push_registered(
    out: &mut Text,
    id: u32,
    profile: Profile,
    first: u32,
    second: u32,
) -> Result<(), OutOfMemory>
    requires { id < 100000000 }
    ensures { OnOk result (out.new ≡ out.old ++ register_row id profile first second) }
{
    push_number(out, id)?;
    out.extend_from_slice(b",")?;
    out.extend_from_slice(category_name(profile.category).as_bytes())?;
    out.extend_from_slice(b",")?;
    out.extend_from_slice(traits_name(profile.women, profile.disabled).as_bytes())?;
    out.extend_from_slice(b",g")?;
    push_eight_digits(out, id)?;
    push_place(out, first, profile.relaxed)?;
    push_place(out, second, profile.relaxed)?;
    out.extend_from_slice(b"\n")
}

/// Puts the choices of `n` candidates, whose profiles are drawn from here on.
pub(crate) fn push_choices(out: &mut Text, draws: &mut Draws, n: u32) -> Result<(), OutOfMemory>
    requires { n ≤ most_generated }
    ensures rows { OnOk result (out.new ≡ out.old ++ choices_text n draws.old.state) }
    ensures state { OnOk result (draws.new.state ≡ state_after (6 * n) draws.old.state) }
{
    out.extend_from_slice(b"[choices]\ncandidate,programmes\n")?;
    for candidate in 0..n {
        let profile = draws.profile();
        push_chosen(out, candidate + 1, profile)?;
    }
    Ok(())
}

/// Puts the row of the choices of a candidate with this profile.
#[tactic(auto, using(crate::proofs::SpellingLemmas::stride_bound))]
fn push_chosen(out: &mut Text, id: u32, profile: Profile) -> Result<(), OutOfMemory>
    requires first { profile.first < 100 }
    requires stride { profile.stride ≤ 9 }
    ensures { OnOk result (out.new ≡ out.old ++ choices_row id profile) }
{
    push_number(out, id)?;
    for place in 0..CHOICES {
        out.extend_from_slice(b",")?;
        push_code(out, (profile.first + place * profile.stride) % 100)?;
    }
    out.extend_from_slice(b"\n")
}
