// An office at a desk as a counter.
ghost use Rattle.std.specs.Prelude.{◌≡◌, ◌<◌, ◌≤◌, ◌+◌, length, option_copied};
ghost use Rattle.office_http.specs.Asking.{PutsStood, token_of};
ghost use Rattle.office_http.specs.Keeping.{KeepsStood, MayWait};
ghost use Rattle.office_http.specs.Knowing.{PutsInTurn, SettlesInTurn, known_of};
ghost use Rattle.office_desk.specs.Words.{belongs, left_of, origin_of, seen_of};
ghost use Rattle.proceedings.specs.Proceeding.{last_of};

use crate::stood::{DeskOffice, TablesBefore};
use crate::token_parts;
use http_sessions::{Answered, Counter};
use http_wire::Fault;
use keeper_mem::Keeper;
use office_asks::Ask;
use office_desk::{Desk, Keeps, Pass};
use std::alloc::Global;
use std::sync::Wait;

/// A desk with a pass to it. Each ask is one turn, and one more if what its answer could have seen waits to be kept:
/// one turn keeps what waits of all who had their turn before it. So half as many asks are left as the pass has turns.
#[derive(Drop)]
pub struct DeskCounter<'a, V: Keeps, R: Wait> {
    pub rt: &'a R,
    pub desk: &'a Desk<V>,
    pub pass: &'a mut Pass<V>,
    pub ghost same_desk: { belongs desk.now pass.now },
}

impl<'a, V: Keeps, R: Wait> DeskCounter<'a, V, R> {
    /// Returns a counter at this desk, with a pass of it. It allocates nothing.
    pub fn new(rt: &'a R, desk: &'a Desk<V>, pass: &'a mut Pass<V>) -> DeskCounter<'a, V, R>
        requires { belongs desk.now pass.old }
        ensures same_pass { result.pass.ghost_name ≡ pass.entry.ghost_name }
        ensures pass { result.pass.now ≡ pass.old }
        ensures desk { result.desk.now ≡ desk.now }
    {
        DeskCounter { rt, desk, pass }
    }
}

/// Puts an ask with its token to the office in one turn.
/// Returns also whether nothing waits to be kept then, and how many entries the office has.
fn put_in_turn<K: Keeper, B: TablesBefore, R: Wait>(
    rt: &R,
    desk: &Desk<DeskOffice<K, B>>,
    pass: &mut Pass<DeskOffice<K, B>>,
    alloc: Global,
    token: Option<&[u8]>,
    ask: &Ask,
) -> (Result<Answered, Fault>, bool, usize)
    requires desk { belongs desk.now pass.old }
    requires left { 1 ≤ left_of pass.old }
    ensures desk { belongs desk.now pass.new }
    ensures left { left_of pass.old ≡ left_of pass.new + 1 }
    ensures put { PutsInTurn (origin_of desk.now).office.season
        (K.seen (origin_of desk.now).office.keeper).holds_room (MayWait K.seen) (known_of pass.old)
        (option_copied token.entry) ask.now result.0 result.1 (known_of pass.new) }
    ensures count { result.2 ≡ length (seen_of pass.new) }
{
    let (has_token, bytes) = token_parts(token);
    desk.turn(
        rt,
        pass,
        |stood: &mut DeskOffice<K, B>, number: u64| -> (Result<Answered, Fault>, bool, usize)
            requires { last_of stood.old.office.entries < number }
            ensures { PutsStood K.seen number (token_of has_token bytes.entry.now)
                ask.entry.now result.0 result.1 result.2 stood.old stood.new }
        { stood.put(alloc, number, has_token, bytes, ask) },
    )
}

/// Keeps in one turn what waits of the office, unless another turn has kept so many entries by then: all that the pass
/// has seen. Who waits for a turn goes first, so that one sync keeps what they put as well.
fn settle_in_turn<K: Keeper, B: TablesBefore, R: Wait>(
    rt: &R,
    desk: &Desk<DeskOffice<K, B>>,
    pass: &mut Pass<DeskOffice<K, B>>,
    needed: usize,
) -> Result<(), Fault>
    requires desk { belongs desk.now pass.old }
    requires left { 1 ≤ left_of pass.old }
    requires needed { needed ≡ length (seen_of pass.old) }
    ensures desk { belongs desk.now pass.new }
    ensures left { left_of pass.old ≡ left_of pass.new + 1 }
    ensures settled { SettlesInTurn (known_of pass.old) result (known_of pass.new) }
{
    desk.late_turn(
        rt,
        pass,
        |stood: &mut DeskOffice<K, B>, number: u64| -> Result<(), Fault>
            requires { last_of stood.old.office.entries < number }
            ensures { KeepsStood K.seen needed result stood.old stood.new }
        {
            let _turn = number;
            stood.keep(needed)
        },
    )
}

impl<K: Keeper, B: TablesBefore, R: Wait> Counter for DeskCounter<'_, DeskOffice<K, B>, R> {
    ghost use Rattle.std.specs.Prelude.{◌≡◌, ◌/◌};
    ghost use Rattle.office_http.specs.Keeping.{MayWait};
    ghost use Rattle.office_http.specs.Knowing.{AsksInTurn, known_of};
    ghost use Rattle.office_http.specs.DeskStatuses.{replied};
    ghost use Rattle.office_desk.specs.Words.{left_of, origin_of};

    ghost asks_left = { λ c. left_of c.pass.now / 2 };

    ghost lender = { λ c. c.pass.ghost_name };

    ghost answers = { λ c token ask answer c'. (c'.desk.now ≡ c.desk.now)
        × AsksInTurn (origin_of c.desk.now).office.season (K.seen (origin_of c.desk.now).office.keeper).holds_room (MayWait K.seen) (known_of c.pass.now) token ask answer (known_of c'.pass.now) };

    fn ask(&mut self, alloc: Global, token: Option<&[u8]>, ask: &Ask) -> Result<Answered, Fault> {
        let (answer, settled, count) = put_in_turn(
            self.rt, self.desk, self.pass, alloc, token, ask,
        );
        let answered = answer?;
        if settled {
            return Ok(answered);
        }
        match settle_in_turn(self.rt, self.desk, self.pass, count) {
            Ok(()) => Ok(answered),
            Err(fault) => Err(fault),
        }
    }

    ghost replied = { λ before token ask answered after asked. replied (origin_of before.desk.now).office.season (K.seen (origin_of before.desk.now).office.keeper).holds_room (MayWait K.seen)
        (known_of before.pass.now) token ask answered (known_of after.pass.now) asked.1 };
}
