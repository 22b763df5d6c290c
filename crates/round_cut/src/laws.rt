// What holds of an office over a keeper with tables that are always visible.
ghost use Rattle.std.specs.Prelude.{◌≡◌, ◌<◌, true, IsOk};
ghost use Rattle.kept_rows.specs.Tables.{Records};
ghost use Rattle.kept_rows.specs.declared.rows.Kept.{Kept as AnyKept};
ghost use Rattle.office_moves.specs.Decided.{decided};
ghost use Rattle.office_moves.specs.Stands.{AreRecordsOf};
ghost use Rattle.proceedings.specs.Proceeding.{last_of};
ghost use Rattle.round_cut.specs.Office.{withdraws};

use crate::fault::OfficeFault;
use crate::office::Office;
use keeper_mem::{SureKeeper, Teller};
use office_asks::Request;
use office_moves::Reply;
use std::alloc::Global;

/// Shows that the tables of such a keeper are records, and that they represent the state of the office.
#[tactic(auto, using(crate::proofs::Standing::stand_records))]
pub fn kept_for_sure<K: Teller>(office: &Office<K>)
    ensures { (records : AnyKept) × ((K.seen office.now.keeper).tables ≡ Records records)
        × AreRecordsOf office.now.season office.now.state records }
{
    office.keeper.tells();
}

/// Answers a withdrawal that is newly accepted, over a keeper that never fails. The result is always `Ok`.
pub fn withdraws_for_sure(
    alloc: Global,
    office: &mut Office<SureKeeper>,
    number: u64,
    request: &Request,
) -> Result<Reply, OfficeFault>
    requires number { last_of office.old.entries < number }
    requires withdraws { withdraws (decided office.old.season office.old.state request.now) ≡ true }
    ensures { IsOk result }
{
    office.handle(alloc, number, request)
}
