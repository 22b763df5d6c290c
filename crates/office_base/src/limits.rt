// The limits of the office as the code has them. Each is the number of the definition of its name.
ghost use Rattle.std.specs.Prelude.{◌≡◌};
ghost use Rattle.office_base.specs.Limits.{most_candidates, most_programmes, most_step_seats, most_matrix_seats, most_row_choices, most_choices, most_rounds, most_turns, most_sheet_bytes, most_bundle_bytes, last_id, last_place, last_window, last_turn, shortest_code, longest_code, shortest_token, longest_token};

/// Candidates of a register, or of a step sheet.
pub const MOST_CANDIDATES: usize = 250_000;

/// Programmes of a matrix.
pub const MOST_PROGRAMMES: usize = 2_000;

/// Seats of a step, and protections of one trait.
pub const MOST_STEP_SEATS: u32 = 4_000;

/// Seats of all steps of a matrix.
pub const MOST_MATRIX_SEATS: u32 = 1_000_000;

/// Programmes on one choice list.
pub const MOST_ROW_CHOICES: usize = 1_000;

/// Programmes on all choice lists.
pub const MOST_CHOICES: usize = 5_000_000;

/// Rounds of a season.
pub const MOST_ROUNDS: u32 = 10;

/// Accepted turns of one candidate in one window. A withdrawal may come after them.
pub const MOST_TURNS: u16 = 16;

/// Bytes of a step sheet.
pub const MOST_SHEET_BYTES: usize = 16_777_216;

/// Bytes of a season bundle.
pub const MOST_BUNDLE_BYTES: usize = 134_217_728;

/// The greatest number of a candidate.
pub const LAST_ID: u32 = 999_999_999;

/// The greatest place in a merit list.
pub const LAST_PLACE: u32 = 9_999_999;

/// The greatest number of a window or a round in a request.
pub const LAST_WINDOW: u32 = 65_535;

/// The greatest number of a turn in a request.
pub const LAST_TURN: u32 = 65_535;

/// Bytes of a code, at least.
pub const SHORTEST_CODE: usize = 1;

/// Bytes of a code, at most.
pub const LONGEST_CODE: usize = 16;

/// Bytes of a token, at least.
pub const SHORTEST_TOKEN: usize = 8;

/// Bytes of a token, at most.
pub const LONGEST_TOKEN: usize = 32;

/// Shows that the limits of counted things are those of the definitions.
pub fn counts_are_limited()
    ensures candidates { MOST_CANDIDATES ≡ most_candidates }
    ensures programmes { MOST_PROGRAMMES ≡ most_programmes }
    ensures step_seats { MOST_STEP_SEATS ≡ most_step_seats }
    ensures matrix_seats { MOST_MATRIX_SEATS ≡ most_matrix_seats }
    ensures row_choices { MOST_ROW_CHOICES ≡ most_row_choices }
    ensures choices { MOST_CHOICES ≡ most_choices }
    ensures rounds { MOST_ROUNDS ≡ most_rounds }
    ensures turns { MOST_TURNS ≡ most_turns }
{}

/// Shows the same of the limits of numbers.
pub fn numbers_are_limited()
    ensures id { LAST_ID ≡ last_id }
    ensures place { LAST_PLACE ≡ last_place }
    ensures window { LAST_WINDOW ≡ last_window }
    ensures turn { LAST_TURN ≡ last_turn }
{}

/// Shows the same of the limits of bytes.
pub fn lengths_are_limited()
    ensures sheet { MOST_SHEET_BYTES ≡ most_sheet_bytes }
    ensures bundle { MOST_BUNDLE_BYTES ≡ most_bundle_bytes }
    ensures shortest_code { SHORTEST_CODE ≡ shortest_code }
    ensures longest_code { LONGEST_CODE ≡ longest_code }
    ensures shortest_token { SHORTEST_TOKEN ≡ shortest_token }
    ensures longest_token { LONGEST_TOKEN ≡ longest_token }
{}
