// The choice of a step: whom the seats of one step admit from the people who compete for them.
//
// The choices of programmes and the commands depend on it. It honours as many protections as can be, then takes the
// best by merit, and shows by a certificate which protections are filled. `choose` promises the definitions of the
// base whole. `StepState` makes the same choice from people who come one at a time, and allocates nothing then.
// `in_merit_order` puts people by merit. `laws` says what follows from the definitions when people or seats are
// added, and what the merit order is. It must never know of categories, programmes or rounds.
#![tactic(auto)]

pub mod choice;
mod held;
pub mod laws;
pub mod order;
pub mod state;

pub use choice::{Chosen, choose};
pub use held::put_in_order;
pub use office_base::Step;
pub use order::in_merit_order;
pub use state::{Offered, StepState};
