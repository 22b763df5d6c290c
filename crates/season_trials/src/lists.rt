// The list of a programme read back, and the lines of lists that are damaged.
use crate::readers::SEASON;
use office_base::{CandId, OutOfMemory, Pair, ProgId, StepKind};
use programme_lists::StepList;
use publish::{TextFault, read_list};
use season_file::Season;
use std::alloc::Global;

/// The first lines of a list: two are admitted at the open step, of whom one has a slot.
const OPEN: &str = "list 2 A\nstep OPEN seats 2 candidates 3 admitted 2\nhonoured 1\n9 -\n7 W\n";

/// The steps after it, and the last line.
const LATER: &str =
    "step EWS seats 0 candidates 0 admitted 0\nhonoured 0\nstep OBC seats 0 candidates 0 admitted 0\nhonoured 0\nstep SC seats 1 candidates 1 admitted 1\nhonoured 1\n12 L\nstep ST seats 0 candidates 0 admitted 0\nhonoured 0\nstep D seats 4294967295 candidates 0 admitted 1\nhonoured 0\n9 -\nend list\n";

/// The steps of the categories, to which nobody came.
const EMPTY: &str =
    "step EWS seats 0 candidates 0 admitted 0\nhonoured 0\nstep OBC seats 0 candidates 0 admitted 0\nhonoured 0\nstep SC seats 0 candidates 0 admitted 0\nhonoured 0\nstep ST seats 0 candidates 0 admitted 0\nhonoured 0\n";

/// Lists, and the line of their fault.
const DAMAGED: &[(&str, u32)] = &[
    ("", 1),
    ("lis", 2),
    ("list 65536 A\n", 1),
    ("list 2 C\n", 1),
    ("list 2 A", 2),
    ("list 2 A\n", 2),
    ("list 2 A\nend list\n", 2),
    ("list 2 A\nstep EWS", 2),
    ("list 2 A\nstep OPEN seats 4294967296", 2),
    ("list 2 A\nstep OPEN seats 2 candidates 3 admitted 4", 2),
    ("list 2 A\nstep OPEN seats 2 candidates 3 admitted 3", 3),
    (
        "list 2 A\nstep OPEN seats 2 candidates 3 admitted 2\nhonoured 3\n",
        3,
    ),
    (
        "list 2 A\nstep OPEN seats 2 candidates 3 admitted 2\nhonoured 2\n9 -\n",
        4,
    ),
    (
        "list 2 A\nstep OPEN seats 2 candidates 3 admitted 2\nhonoured 0\n9 W\n",
        4,
    ),
    (
        "list 2 A\nstep OPEN seats 2 candidates 3 admitted 2\nhonoured 1\n9 W\n7 W\n",
        5,
    ),
    (
        "list 2 A\nstep OPEN seats 2 candidates 3 admitted 2\nhonoured 1\n9 -\n9 W\n",
        5,
    ),
    (
        "list 2 A\nstep OPEN seats 2 candidates 3 admitted 2\nhonoured 1\n9 -\n8 W\n",
        5,
    ),
    (
        "list 2 A\nstep OPEN seats 2 candidates 3 admitted 2\nhonoured 1\n9 -\n7 A\n",
        5,
    ),
    (
        "list 2 A\nstep OPEN seats 2 candidates 3 admitted 2\nhonoured 1\n9 -\n9",
        5,
    ),
    (
        "list 2 A\nstep OPEN seats 2 candidates 3 admitted 2\nhonoured 1\n9 -\n1",
        6,
    ),
    (
        "list 2 A\nstep OPEN seats 2 candidates 3 admitted 2\nhonoured 1\n9 -\n12 -",
        5,
    ),
    (
        "list 2 A\nstep OPEN seats 2 candidates 3 admitted 2\nhonoured 1\n9 -\n12 S",
        6,
    ),
];

/// Last steps after an open step and empty ones, and the line of the fault of the list: 0 where it is read.
const LAST_STEPS: &[(&str, u32)] = &[
    ("step D seats 1 candidates 1 admitted 1\nhonoured 1\n", 15),
    (
        "step D seats 1 candidates 1 admitted 1\nhonoured 0\n7 W\n",
        16,
    ),
    (
        "step D seats 1 candidates 1 admitted 1\nhonoured 0\n7 -\nend list\n",
        0,
    ),
    (
        "step D seats 1 candidates 1 admitted 1\nhonoured 0\n7 -\nend list\n\n",
        18,
    ),
];

/// Whether a list has its fault at this line, or is read, where it is 0.
fn is_line(alloc: Global, season: &Season, text: &[u8], line: u32) -> bool {
    match read_list(alloc, season, text) {
        Ok(_) => line == 0,
        Err(fault) => fault == TextFault::Line(line),
    }
}

/// The bytes of some texts, one after another.
fn joined(alloc: Global, texts: &[&str]) -> Result<Vec<u8>, OutOfMemory> {
    let mut all = Vec::new(alloc);
    for text in texts {
        all.extend_from_slice(text.as_bytes())?;
    }
    Ok(all)
}

/// Whether the open step of the list above was read: candidates 9 and 7 are admitted, of whom 7 has the first trait's slot.
fn is_open(step: &StepList) -> bool {
    let pair = Pair {
        cand: CandId(7),
        slot: 0,
    };
    let [first, second] = step.admitted.as_slice() else {
        return false;
    };
    step.kind == StepKind::Open
        && step.seats == 2
        && step.candidates == 3
        && step.cert.pairs.as_slice() == [pair].as_slice()
        && first.id == CandId(9)
        && second.id == CandId(7)
}

/// Whether the steps after it were read.
fn are_later(steps: &[StepList; 6]) -> bool {
    let [_, _, _, sc, _, last] = steps;
    sc.admitted.len() == 1 && last.kind == StepKind::Dereserved && last.seats == u32::MAX
}

/// Whether the list above is read back.
fn is_read(alloc: Global, season: &Season, text: &[u8]) -> bool {
    match read_list(alloc, season, text) {
        Ok(read) => {
            let steps = &read.programme.steps;
            read.round == 2 && read.prog == ProgId(0) && is_open(&steps[0]) && are_later(steps)
        }
        Err(_) => false,
    }
}

/// Returns whether another byte at this place is reported at this line.
fn is_byte_told(alloc: Global, season: &Season, text: &[u8], at: usize, line: u32) -> bool {
    let Ok(mut damaged) = text.to_vec(alloc) else {
        return false;
    };
    if let Some(other) = damaged.get_mut(at) {
        *other = b'~';
    }
    is_line(alloc, season, damaged.as_slice(), line)
}

/// Returns whether another byte is reported at its line, at every place of a text of 18 lines.
fn are_bytes_told(alloc: Global, season: &Season, text: &[u8]) -> bool {
    let mut told = true;
    let mut line = 1u32;
    for (at, byte) in text.iter().enumerate() {
        told &= is_byte_told(alloc, season, text, at, line);
        if *byte == b'\n' {
            line = line.saturating_add(1);
        }
    }
    told && line == 19
}

/// Returns whether a text that ends early is reported after its end, at every place, and the whole text is read.
fn are_ends_told(alloc: Global, season: &Season, text: &[u8]) -> bool {
    let mut told = is_line(alloc, season, text, 0);
    let mut line = 1u32;
    let mut begun = 0u32;
    for (at, byte) in text.iter().enumerate() {
        told &= is_line(alloc, season, &text[..at], line.saturating_add(begun));
        begun = 1;
        if *byte == b'\n' {
            line = line.saturating_add(1);
            begun = 0;
        }
    }
    told
}

/// Returns whether the list above is read back, and reported if it is damaged or ends early.
fn is_list_told(alloc: Global, season: &Season) -> bool {
    match joined(alloc, &[OPEN, LATER]) {
        Ok(text) => {
            let text = text.as_slice();
            is_read(alloc, season, text)
                && are_bytes_told(alloc, season, text)
                && are_ends_told(alloc, season, text)
        }
        Err(_) => false,
    }
}

/// Whether the list whose categories left seats has this line with this last step.
fn is_last_line(alloc: Global, season: &Season, last: &str, line: u32) -> bool {
    match joined(alloc, &[OPEN, EMPTY, last]) {
        Ok(text) => is_line(alloc, season, text.as_slice(), line),
        Err(_) => false,
    }
}

/// Whether it is for the season.
fn whole_list_holds(alloc: Global) -> bool {
    match Season::from_text(alloc, SEASON.as_bytes()) {
        Ok(season) => is_list_told(alloc, &season),
        Err(_) => false,
    }
}

/// Whether each of these lists, and each list with one of these last steps, has its line.
fn are_lines(
    alloc: Global,
    season: &Season,
    lists: &[(&str, u32)],
    last_steps: &[(&str, u32)],
) -> bool {
    lists.iter().all(|(text, line)| is_line(alloc, season, text.as_bytes(), *line))
        && last_steps
            .iter()
            .all(|(last, line)| is_last_line(alloc, season, last, *line))
}

/// Whether they have for the season.
fn lists_tell(alloc: Global, lists: &[(&str, u32)], last_steps: &[(&str, u32)]) -> bool {
    match Season::from_text(alloc, SEASON.as_bytes()) {
        Ok(season) => are_lines(alloc, &season, lists, last_steps),
        Err(_) => false,
    }
}

#[test]
fn a_list_is_read_back_and_told_where_a_byte_is_wrong_or_it_ends_early(rt: HostRuntime) {
    assert!(rt; whole_list_holds(rt.alloc()));
}

#[test]
fn damaged_lists_tell_their_line(rt: HostRuntime) {
    assert!(rt; lists_tell(rt.alloc(), DAMAGED, &[]));
}

#[test]
fn nobody_has_a_slot_where_categories_left_seats(rt: HostRuntime) {
    assert!(rt; lists_tell(rt.alloc(), &[], LAST_STEPS));
}
