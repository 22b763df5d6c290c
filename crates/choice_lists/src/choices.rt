// The choice lists, as the layers above see them.
ghost use Rattle.std.specs.Prelude.{◌≡◌, ◌<◌, ◌≤◌, Some, IfOk, IfErr, length, map, option_map, slice_get};
ghost use Rattle.office_base.specs.Limits.{most_row_choices};
ghost use Rattle.section_rows.specs.Rows.{rows_of};
ghost use Rattle.choice_lists.specs.Choices.{IsRead, IsFault, AreChoices, AreDistinct, list_of};

use crate::builder::ChoicesBuilder;
use crate::fault::ChoiceFault;
use crate::flat::FlatLists;
use office_base::{CandId, ProgId};
use rank_lists::Register;
use seat_matrix::Matrix;
use section_rows::read_table;
use std::alloc::Global;
use std::marker::Model;

/// The ids of all candidates of a register in rising order, and their lists along with them.
#[derive(Drop)]
pub struct Choices {
    pub(crate) ids: Vec<u32>,
    pub(crate) lists: FlatLists<ProgId>,
}

impl Model for Choices {
    ghost use Rattle.choice_lists.specs.Choices.{Lists, AreKept, lists_along};

    ghost Value = { Lists };

    ghost view = { λ a. lists_along a.ids.items a.lists };

    ghost invariant = { λ a. AreKept a.ids.items a.lists };
}

impl Choices {
    /// Returns the choices that the body of a section spells, given a register and a matrix, or its first fault by
    /// rows. There is one list for each candidate of the register, in its order. It is empty if the candidate has no
    /// row.
    pub fn read(
        alloc: Global,
        body: &[u8],
        register: &Register,
        matrix: &Matrix,
    ) -> Result<Choices, ChoiceFault>
        ensures value { IfOk result (λ choices.
            IsRead register.now matrix.now (rows_of body.now) choices) }
        ensures fault { IfErr result (λ fault.
            IsFault register.now matrix.now (rows_of body.now) fault) }
        ensures sound { IfOk result (λ choices. AreChoices register.now matrix.now choices) }
        ensures aligned { IfOk result (λ choices.
            map (λ held. held.0) choices ≡ map (λ person. person.id.0) register.now.people) }
    {
        let mut builder = ChoicesBuilder::new(alloc, register, matrix)?;
        read_table(alloc, body, &mut builder)?;
        Ok(builder.finish(alloc)?)
    }

    /// Returns the programmes that a candidate wants, the most preferred first; none if the candidate has no row.
    /// Allocates nothing.
    pub fn list(&self, cand: CandId) -> &[ProgId]
        ensures list { result.now ≡ list_of self.now cand.0 }
        ensures distinct { AreDistinct result.now }
        ensures short { length result.now ≤ most_row_choices }
    {
        match self.ids.binary_search(&cand.0) {
            Ok(at) => self.lists.at(at),
            Err(_) => &[],
        }
    }

    /// The same as `list`, found without a search where the candidate is the one at this position of the register, from 0. It takes
    /// no memory.
    pub fn list_near(&self, at: usize, cand: CandId) -> &[ProgId]
        ensures list { result.now ≡ list_of self.now cand.0 }
        ensures distinct { AreDistinct result.now }
        ensures short { length result.now ≤ most_row_choices }
    {
        if at < self.ids.len() && self.ids[at] == cand.0 {
            self.lists.at(at)
        } else {
            self.list(cand)
        }
    }

    /// Returns the list of the candidate at this position of the register, from 0. Allocates nothing.
    pub fn list_at(&self, at: usize) -> &[ProgId]
        requires { at < length self.now }
        ensures { option_map (λ held. held.1) (slice_get self.now at) ≡ Some result.now }
    {
        self.lists.at(at)
    }
}
