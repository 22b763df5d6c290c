// The laws of the tables, as contracts of functions that do nothing.
ghost use Rattle.stored_tables.specs.Layout.{LayoutLaw};
ghost use Rattle.stored_tables.specs.Seats.{SeatsRiseLaw};

/// A database has the tables exactly where its schema is theirs.
#[tactic(auto, using(crate::proofs::LayoutLemmas::layout))]
pub fn layout()
    ensures { LayoutLaw }
{}

/// Visible seats rise by round and candidate, in the order in which they were put.
#[tactic(auto, using(crate::proofs::SeatLemmas::seats_rise))]
pub fn seats_rise()
    ensures { SeatsRiseLaw }
{}
