// The base of the office: who a person is, what a step is, and the outside as the office sees it.
//
// Every layer builds on it. `specs/` has the definitions that the whole office is proved against: better, step,
// placement, honoured, step choice, certificate. They speak of all placements and all sublists. No function here
// decides who is admitted, and none knows of files, of rounds or of programmes.
#![tactic(auto)]

pub mod booked;
pub mod category_steps;
pub mod choice;
pub mod code;
pub mod errors;
pub mod laws;
pub mod limits;
pub mod listed;
pub mod mem_sink;
pub mod mem_source;
pub mod outside;
mod padding;
pub mod person;
pub mod seat;
pub mod short_text;
pub mod sorted;
pub mod step;
pub mod step_numbers;
pub mod steps;
pub mod sure;
pub mod token;
pub mod whole;
pub mod words;

pub use booked::Booked;
pub use category_steps::{
    ALL_STEPS, CATEGORY_COUNT, CATEGORY_STEPS, CategoryStep, GivesUp, OWN_COUNT, OWN_STEPS,
    STEP_COUNT, gives_up,
};
pub use choice::Choice;
pub use code::Code;
pub use errors::{Failed, OutOfMemory};
pub use listed::{Listed, Pairs, People, Text};
pub use mem_sink::MemSink;
pub use mem_source::{MemSource, fails_at};
pub use outside::{Sink, Source};
pub use person::{CandId, Category, ListId, Person, Place, ProgId, TraitSet, better};
pub use seat::{
    ALL_SEAT_KINDS, SEAT_KIND_COUNT, Seat, SeatKind, seat_kind_number, seat_kind_of_number,
};
pub use sorted::find_sorted;
pub use step::{Pair, Protections, Step, StepKind};
pub use step_numbers::{step_number, step_of_number};
pub use steps::Steps;
pub use sure::{SureSink, SureSource};
pub use token::Token;
pub use whole::{ReadFault, read_whole, write_whole};
pub use words::Words;
