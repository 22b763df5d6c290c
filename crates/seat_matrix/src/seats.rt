// The seats of a programme: its merit list, and the seats of each step with the protected ones among them.
ghost use Rattle.std.specs.Prelude.{◌≡◌};
ghost use Rattle.seat_matrix.specs.Seats.{no_seating, of_step, seats_of, with_seating};

use office_base::{ListId, OWN_COUNT, Protections, StepKind, step_number};

/// The seats of one step, at most 4,000, and how many of them are protected for each trait. The protected positions are
/// among the seats.
#[derive(Clone, Copy, PartialEq, Eq)]
pub struct Seating {
    pub seats: u16,
    pub protections: Protections,
}

/// The seats of a programme in each step that has seats of its own, by the number of the step: 0 and no protections where no
/// row was given.
#[derive(Clone, Copy, PartialEq, Eq)]
pub struct Seatings {
    pub own: [Seating; OWN_COUNT],
}

/// All that a matrix has for one programme: its merit list, and the seats of its steps.
#[derive(Clone, Copy, PartialEq, Eq)]
pub struct ProgrammeSeats {
    pub list: ListId,
    pub steps: Seatings,
}

impl Seating {
    /// No seats, and no protections.
    pub fn none() -> Seating
        ensures { result ≡ no_seating }
    {
        Seating {
            seats: 0,
            protections: Protections { counts: [0; 6] },
        }
    }
}

impl Seatings {
    /// The seats of a step. The step of seats that a category left unfilled has none of its own.
    pub fn of(&self, step: StepKind) -> Seating
        ensures { result ≡ of_step self.now step }
    {
        match self.own.get(usize::from(step_number(step))) {
            Some(seating) => *seating,
            None => Seating::none(),
        }
    }

    /// Gives a step these seats. The other steps keep theirs. The step of seats that a category left unfilled takes none.
    pub fn put(&mut self, step: StepKind, seating: Seating)
        ensures { self.new ≡ with_seating self.old step seating }
    {
        let number = usize::from(step_number(step));
        if number < self.own.len() {
            self.own[number] = seating;
        }
    }
}

impl ProgrammeSeats {
    /// The seats of a step. The step of seats that a category left unfilled has none of its own.
    pub fn of(&self, step: StepKind) -> Seating
        ensures { result ≡ seats_of self.now step }
    {
        self.steps.of(step)
    }
}
