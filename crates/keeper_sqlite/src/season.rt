// The table of the season's text, in parts.
ghost use Rattle.std.specs.Prelude.{◌≡◌, ◌+◌, ◌++◌, ◌^◌, ℕ, List, [], ◌∷◌, codes, IfOk, OnErr, IfErr, OnOk, Bool, Some};
ghost use Rattle.std.specs.List.{AllZip, concat};
ghost use Rattle.keeper_sqlite.specs.Inside.{Acts, IsClean, Performs, StaysInside, content};
ghost use Rattle.keeper_sqlite.specs.Halts.{WantsMemory};
ghost use Rattle.keeper_sqlite.specs.declared.halt.Halt.TheVariants.{Unfit};
ghost use Rattle.keeper_sqlite.specs.Columns.{IsPartRow};
ghost use Rattle.keeper_sqlite.specs.Kept.{PutsText, TellsText, text_query, season_table, text_calls, part_calls, part_text, part_values};
ghost use Rattle.stored_tables.specs.Layout.{stored};
ghost use Rattle.stored_tables.specs.Puts.{PutsPart};
ghost use Rattle.stored_tables.specs.Rows.{text_in};
ghost use Rattle.keeper_sqlite.specs.Stops.{StopsText, LosesRecords};
ghost use Rattle.keeper_sqlite.specs.Kept.Call.{Runs, Asks};

use crate::calls::{ask, make_ready, run_ready};
use crate::halt::Halt;
use office_base::{Listed, Text};
use sqlite::types::ValueRef;
use sqlite::{Alter, Row, Statement, Transaction, params};
use std::alloc::Global;

/// The most bytes that a part has.
const PART: usize = 65_536;

/// Puts a text in parts, from 0, by one statement that is made ready once.
#[tactic(auto, using(crate::proofs::ActLemmas::acts_broken, crate::proofs::StopLemmas::text_unready))]
pub(crate) fn insert_text<S: Alter>(tx: &mut Transaction<'_, S>, text: &[u8]) -> Result<(), Halt>
    ensures inside { StaysInside S.Store tx.old.conn tx.new.conn }
    ensures acts { Acts S.Store (λ _. PutsText S.Store text_calls text.now) (StopsText S.Store
        text_calls 0 text.now) tx.old.conn tx.new.conn result }
{
    let insert = make_ready(tx, "INSERT INTO season (part, bytes) VALUES (?1, ?2)")?;
    insert_parts(tx, &insert, text)
}

fn insert_parts<S: Alter>(
    tx: &mut Transaction<'_, S>,
    insert: &Statement,
    text: &[u8],
) -> Result<(), Halt>
    ensures inside { StaysInside S.Store tx.old.conn tx.new.conn }
    ensures acts { Acts S.Store (λ _. PutsText S.Store (part_calls insert.now.text 0) text.now)
        (StopsText S.Store (part_calls insert.now.text 0) 0 text.now)
        tx.old.conn tx.new.conn result }
{
    let mut rest = text;
    let mut number = 0;
    'parts: while !rest.is_empty() {
        let (part, after) = rest.split_at(rest.len().min(PART));
        insert_part(tx, insert, number, part)?;
        number = next_number(number)?;
        rest = after;
    }
    Ok(())
}

fn next_number(number: u32) -> Result<u32, Halt>
    ensures ok { IfOk result (λ next. next ≡ number + 1) }
    ensures err { IfErr result (λ halt. (halt ≡ Unfit) × (number + 1 ≡ 2 ^ 32)) }
{
    number.checked_add(1).ok_or(Halt::Unfit)
}

fn insert_part<S: Alter>(
    tx: &mut Transaction<'_, S>,
    insert: &Statement,
    number: u32,
    part: &[u8],
) -> Result<(), Halt>
    ensures inside { StaysInside S.Store tx.old.conn tx.new.conn }
    ensures acts { Performs S.Store (Runs insert.now.text (part_values number part.now) ∷ [])
        tx.old.conn tx.new.conn result }
    ensures put { (strict : Bool) → IsClean S.Store tx.new.conn.now → tx.old.conn.now.schema
        ≡ stored strict → insert.now.text ≡ part_text → OnOk result (PutsPart number
        part.now (content S.Store tx.old.conn.now) (content S.Store tx.new.conn.now)) }
{
    run_ready(tx, insert, params![number, part])
}

/// Returns the parts joined, by rising part.
#[tactic(auto, using(crate::proofs::ActLemmas::acts_broken))]
pub(crate) fn read_text<S: Alter>(tx: &mut Transaction<'_, S>, alloc: Global) -> Result<Text, Halt>
    ensures inside { StaysInside S.Store tx.old.conn tx.new.conn }
    ensures acts { Acts S.Store (TellsText S.Store) (LosesRecords S.Store IsPartRow text_query)
        tx.old.conn tx.new.conn result }
    ensures stands { (strict : Bool) → IsClean S.Store tx.new.conn.now
        → tx.old.conn.now.schema ≡ stored strict → IfOk result (λ text. (all : List ℕ)
        → text_in (content S.Store tx.old.conn.now).trees ≡ Some all → all ≡ text) }
{
    let rows = ask(tx, "SELECT part, bytes FROM season ORDER BY part")?;
    text_of(alloc, &rows)
}

fn text_of(alloc: Global, rows: &[Row]) -> Result<Text, Halt>
    ensures ok { IfOk result (λ text. (parts : List (List ℕ))
        × AllZip IsPartRow rows.now parts × (concat parts ≡ text)) }
    ensures err { IfErr result (λ halt. ¬ WantsMemory halt
        → (parts : List (List ℕ)) → ¬ AllZip IsPartRow rows.now parts) }
{
    let mut text = Listed::new(alloc);
    for row in rows {
        push_part(&mut text, row)?;
    }
    Ok(text)
}

fn push_part(text: &mut Text, row: &Row) -> Result<(), Halt>
    ensures ok { OnOk result ((bytes : List ℕ) × IsPartRow row.now bytes
        × (text.new ≡ text.old ++ bytes)) }
    ensures err { IfErr result (λ halt. ¬ WantsMemory halt
        → (bytes : List ℕ) → ¬ IsPartRow row.now bytes) }
    ensures same { OnErr result (text.new ≡ text.old) }
{
    let _part: u64 = row.get(0)?;
    let ValueRef::Blob(bytes) = row.get_ref(1)? else {
        return Err(Halt::Unfit);
    };
    text.extend_from_slice(bytes)?;
    Ok(())
}
