// Calls on the database inside a transaction, as contracts name them.
ghost use Rattle.std.specs.Prelude.{◌≡◌, [], ◌∷◌, map, IfErr};
ghost use Rattle.sqlite.specs.declared.error.Error.{Error};
ghost use Rattle.keeper_sqlite.specs.Inside.{Acts, Performs, StaysInside};
ghost use Rattle.keeper_sqlite.specs.declared.halt.Halt.TheVariants.{Refused};
ghost use Rattle.sqlite.specs.Values.{bound};
ghost use Rattle.keeper_sqlite.specs.Kept.{DidAll, call_of};
ghost use Rattle.keeper_sqlite.specs.Stops.{StopsIn, IsRefusal, RefusesToTell};
ghost use Rattle.keeper_sqlite.specs.Kept.Call.{Runs, Asks, Readies};

use crate::halt::Halt;
use sqlite::types::ValueRef;
use sqlite::{Alter, Row, Statement, Transaction};

/// A call that returns no rows.
#[derive(Clone, Copy)]
pub(crate) enum Act<'a> {
    /// The text is run as a statement with these values.
    Run(&'a str, &'a [ValueRef<'a>]),
    /// The same, and it must change one row.
    Place(&'a str, &'a [ValueRef<'a>]),
    /// The text is asked as a query, and must return no row.
    ExpectNone(&'a str),
}

/// Performs the acts, one after another.
#[tactic(auto, using(crate::proofs::ActLemmas::acts_broken, crate::proofs::StopLemmas::one_lost))]
pub(crate) fn perform<S: Alter>(tx: &mut Transaction<'_, S>, acts: &[Act<'_>]) -> Result<(), Halt>
    ensures inside { StaysInside S.Store tx.old.conn tx.new.conn }
    ensures acts { Performs S.Store (map call_of acts.now) tx.old.conn tx.new.conn result }
{
    for act in acts {
        perform_one(tx, *act)?;
    }
    Ok(())
}

/// Performs one act.
#[tactic(auto, using(crate::proofs::OpenLemmas::run_nothing))]
pub(crate) fn perform_one<S: Alter>(tx: &mut Transaction<'_, S>, act: Act<'_>) -> Result<(), Halt>
    ensures inside { StaysInside S.Store tx.old.conn tx.new.conn }
    ensures acts { Performs S.Store (call_of act.entry ∷ []) tx.old.conn tx.new.conn result }
{
    match act {
        Act::Run(text, values) => {
            tx.execute(text, values)?;
            Ok(())
        }
        Act::Place(text, values) => {
            if tx.execute(text, values)? == 1 {
                Ok(())
            } else {
                Err(Halt::Unfit)
            }
        }
        Act::ExpectNone(text) => {
            if ask(tx, text)?.is_empty() {
                Ok(())
            } else {
                Err(Halt::Unfit)
            }
        }
    }
}

/// Asks a query that takes no values.
#[tactic(auto, using(crate::proofs::ActLemmas::acts_broken))]
pub(crate) fn ask<S: Alter>(tx: &mut Transaction<'_, S>, text: &str) -> Result<Vec<Row>, Halt>
    ensures inside { StaysInside S.Store tx.old.conn tx.new.conn }
    ensures acts { Acts S.Store (λ rows. DidAll S.Store (Asks text.now rows.items ∷ [])) (λ halt old
        new. IsRefusal (λ error. RefusesToTell S.Store text.now error old new) halt) tx.old.conn
        tx.new.conn result }
    ensures halts { IfErr result (λ halt. (error : Error) × (halt ≡ Refused error)) }
{
    Ok(tx.query_all(text, &[])?)
}

/// Makes a statement ready.
#[tactic(auto, using(crate::proofs::ActLemmas::acts_broken))]
pub(crate) fn make_ready<S: Alter>(
    tx: &mut Transaction<'_, S>,
    text: &str,
) -> Result<Statement, Halt>
    ensures inside { StaysInside S.Store tx.old.conn tx.new.conn }
    ensures acts { Acts S.Store (λ statement old new. (statement.text ≡ text.now) × DidAll S.Store
        (Readies text.now ∷ []) old new) (StopsIn S.Store (Readies text.now ∷ [])) tx.old.conn
        tx.new.conn result }
    ensures halts { IfErr result (λ halt. (error : Error) × (halt ≡ Refused error)) }
{
    Ok(tx.prepare(text)?)
}

/// Runs a statement that was made ready.
#[tactic(auto, using(crate::proofs::OpenLemmas::run_nothing))]
pub(crate) fn run_ready<S: Alter>(
    tx: &mut Transaction<'_, S>,
    statement: &Statement,
    values: &[ValueRef<'_>],
) -> Result<(), Halt>
    ensures inside { StaysInside S.Store tx.old.conn tx.new.conn }
    ensures acts { Performs S.Store (Runs statement.now.text (bound values.now) ∷ []) tx.old.conn
        tx.new.conn result }
    ensures halts { IfErr result (λ halt. (error : Error) × (halt ≡ Refused error)) }
{
    tx.execute_prepared(statement, values)?;
    Ok(())
}
