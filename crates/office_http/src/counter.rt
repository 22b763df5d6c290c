// An office as a counter.
ghost use Rattle.std.specs.Prelude.{◌≡◌};

use crate::bodies::Bodies;
use crate::putting::{put_to_office, settle_office, token_parts};
use http_sessions::{Answered, Counter};
use http_wire::Fault;
use keeper_mem::Keeper;
use office_asks::Ask;
use round_cut::Office;
use std::alloc::Global;

/// An office to which asks are put one after another, each under the number after the last one.
/// What waits to be kept is settled before each answer.
/// The asks left are 2^42 less the last number.
#[derive(Drop)]
pub struct OfficeCounter<'a, K: Keeper> {
    pub office: &'a mut Office<K>,
}

impl<'a, K: Keeper> OfficeCounter<'a, K> {
    /// Returns a counter over this office. It allocates nothing.
    pub fn new(office: &'a mut Office<K>) -> OfficeCounter<'a, K>
        ensures same_office { result.office.ghost_name ≡ office.entry.ghost_name }
        ensures office { result.office.now ≡ office.old }
    {
        OfficeCounter { office }
    }
}

impl<K: Keeper> Counter for OfficeCounter<'_, K> {
    ghost use Rattle.std.specs.Prelude.{◌+◌, ◌-◌, ◌^◌};
    ghost use Rattle.office_http.specs.Asking.{AsksSettled};
    ghost use Rattle.office_http.specs.Statuses.{replied};
    ghost use Rattle.proceedings.specs.Proceeding.{last_of};

    ghost asks_left = { λ c. 2 ^ 42 - last_of c.office.now.entries };

    ghost lender = { λ c. c.office.ghost_name };

    ghost answers = { λ c token ask answer c'. AsksSettled K.seen (last_of c.office.now.entries + 1) token ask answer c.office.now c'.office.now };

    fn ask(&mut self, alloc: Global, token: Option<&[u8]>, ask: &Ask) -> Result<Answered, Fault> {
        let (has_token, bytes) = token_parts(token);
        let number = self.office.last_number() + 1;
        let mut bodies = Bodies::new(alloc);
        let answered = put_to_office(
            alloc,
            self.office,
            &mut bodies,
            number,
            has_token,
            bytes,
            ask,
        )?;
        match settle_office(self.office) {
            Ok(()) => Ok(answered),
            Err(fault) => Err(fault),
        }
    }

    ghost replied = { λ before token ask answered after asked. replied before.office.now.season after.office.now.state asked.0.reply answered asked.0.answer };
}
