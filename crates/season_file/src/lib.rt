// The season bundle: rounds and clerk, register, matrix and choices in one text, which a script of requests may
// follow.
//
// The commands and the office depend on it. `specs/` says where the sections of a bundle begin, what the rows of the
// first one give, and which fault of a bundle is the first: its length, its bytes, its first line, its sections, then
// the faults of each section in their order. A season is read from a source or from bytes by the same grammar, and
// nothing of it depends on how the source cuts its bytes. It must never know what a request means, or what a season
// is read for.
#![tactic(auto)]

mod content;
pub mod fault;
mod head;
pub mod laws;
pub mod script;
pub mod season;
pub mod splitting;

pub use content::Content;
pub use fault::SeasonFault;
pub use head::Head;
pub use script::{Script, read_script};
pub use season::Season;
pub use splitting::{Pieces, split_with_requests};
