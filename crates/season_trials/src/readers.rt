// Published texts read back, and the lines of those that are damaged.
use kept_rows::AllotRow;
use office_base::{CandId, ProgId, SeatKind, StepKind};
use publish::{TextFault, read_final, read_round};
use season_file::Season;
use std::alloc::Global;

/// Candidates 7, 9 and 12, and programmes A and B, in seven rounds.
pub(crate) const SEASON: &str =
    "office bundle 1\n[season]\nclerk,clerk0001\nrounds,7\n[register]\nid,category,traits,token,m1,m2,m3,m4\n12,SC,W,tok00012,3,1R\n7,GEN,-,tok00007,1\n9,GEN,-,tok00009,2\n[matrix]\nprogramme,institute,list,step,seats,W,D,X,S,F,L\nA,I1,1,OPEN,1\nA,I1,1,SC,2\nB,I2,2,SC,1\n[choices]\ncandidate,programmes\n12,B,A\n7,A\n";

/// Final admissions, and the line of their fault: 0 where they are read.
const DAMAGED_FINALS: &[(&str, u32)] = &[
    ("final 0\nend final\n", 0),
    ("final 1\nadmit 7 A KEPT\nend final\n", 0),
    ("final 1\nadmit 7 A KEEP\nend final\n", 2),
    ("", 1),
    ("final 4\n", 1),
    ("final 01\n", 1),
    ("round 1\n", 1),
    ("final 3\nadmit 9 A OPEN\n", 2),
    ("final 2\nadmit 12 A OPEN\n", 2),
    ("final 1\nadmit 8 A OPEN\nend final\n", 2),
    ("final 1\nadmit 7 C OPEN\nend final\n", 2),
    ("final 1\nadmit 7 A GEN-EWS\nend final\n", 2),
    ("final 1\nadmit 7 A EWS\r\nend final\n", 2),
    ("final 1\nadmit 7  A EWS\nend final\n", 2),
    ("final 1\nend final\n", 2),
    ("final 2\nadmit 7 A OPEN\nend final\n", 3),
    ("final 2\nadmit 9 A SC\nadmit 7 A SC\nend final\n", 3),
    ("final 1\nadmit 7 A OPEN\nadmit 9 A OPEN\nend final\n", 3),
    ("final 1\nadmit 7 A OPEN\nend finax\n", 3),
    ("final 1\nadmit 7 A OPEN\n", 3),
    ("final 1\nadmit 7 A OPEN\nend final\n\n", 4),
];

/// Final admissions whose last line has no end, and the line of their fault: one past it where it may begin a line that is right.
const BEGUN_FINALS: &[(&str, u32)] = &[
    ("fin", 2),
    ("fix", 1),
    ("final ", 2),
    ("final 3", 2),
    ("final 4", 1),
    ("final 2\nadmit 1", 2),
    ("final 1\nadmit 1", 3),
    ("final 1\nadmit 12", 3),
    ("final 1\nadmit 123", 2),
    ("final 1\nadmit 12 ", 3),
    ("final 1\nadmit 12 B", 3),
    ("final 1\nadmit 12 C", 2),
    ("final 1\nadmit 12 B E", 3),
    ("final 1\nadmit 12 B KEP", 3),
    ("final 1\nadmit 12 B KEPX", 2),
    ("final 1\nadmit 12 B EX", 2),
    ("final 1\nadmit 12 B D", 3),
    ("final 1\nadmit 12 B D\nend final", 4),
    ("final 1\nadmit 12 B D\nend fina", 4),
    ("final 1\nadmit 12 B D\nend final ", 3),
    ("final 1\nadmit 12 B D\nend final\ne", 4),
];

/// Rounds, and the line of their fault: 0 where they are read.
const DAMAGED_ROUNDS: &[(&str, u32)] = &[
    ("round 0 seated 0\nend round\n", 0),
    ("round 65535 seated 0\nend round\n", 0),
    ("round 65536 seated 0\nend round\n", 1),
    ("round 1 seated 4\n", 1),
    ("round 1 seated\n", 1),
    ("round 1  seated 1\n", 1),
    ("round 6553", 2),
    ("round 65535", 2),
    ("round 655350", 1),
    ("round 65535 sea", 2),
    ("round 65535 seated 3", 2),
    ("round 65535 seated 4", 1),
    ("round 1 seated 1\nadmit 7 A OPEN\n", 2),
    ("round 1 seated 1\nallot 7 A OPEN\nend final\n", 3),
    ("round 1 seated 3\nallot 7 A OPEN\nallot 12 A OPEN\n", 3),
];

fn row(round: u16, cand: u32, prog: u16, step: StepKind) -> AllotRow {
    AllotRow {
        round,
        cand: CandId(cand),
        prog: ProgId(prog),
        step: SeatKind::Under(step),
    }
}

/// Whether final admissions have their fault at this line, or are read, where it is 0.
fn is_final_line(alloc: Global, season: &Season, text: &str, line: u32) -> bool {
    match read_final(alloc, season, text.as_bytes()) {
        Ok(_) => line == 0,
        Err(fault) => fault == TextFault::Line(line),
    }
}

/// Whether a round has its fault at this line, or is read, where it is 0.
fn is_round_line(alloc: Global, season: &Season, text: &str, line: u32) -> bool {
    match read_round(alloc, season, text.as_bytes()) {
        Ok(_) => line == 0,
        Err(fault) => fault == TextFault::Line(line),
    }
}

/// Whether each of these final admissions, and each of these rounds, has its line.
fn are_lines(
    alloc: Global,
    season: &Season,
    finals: &[(&str, u32)],
    rounds: &[(&str, u32)],
) -> bool {
    finals
        .iter()
        .all(|(text, line)| is_final_line(alloc, season, text, *line))
        && rounds
            .iter()
            .all(|(text, line)| is_round_line(alloc, season, text, *line))
}

/// Whether they have for the season.
fn texts_tell(alloc: Global, finals: &[(&str, u32)], rounds: &[(&str, u32)]) -> bool {
    match Season::from_text(alloc, SEASON.as_bytes()) {
        Ok(season) => are_lines(alloc, &season, finals, rounds),
        Err(_) => false,
    }
}

/// Whether final admissions are read back.
fn final_is_read(alloc: Global, season: &Season) -> bool {
    let text = "final 2\nadmit 7 A OPEN\nadmit 12 B D\nend final\n";
    let rows = [
        row(8, 7, 0, StepKind::Open),
        row(8, 12, 1, StepKind::Dereserved),
    ];
    match read_final(alloc, season, text.as_bytes()) {
        Ok(read) => read.rows.as_slice() == rows.as_slice(),
        Err(_) => false,
    }
}

/// Whether a round is read back.
fn round_is_read(alloc: Global, season: &Season) -> bool {
    let text = "round 3 seated 2\nallot 9 A EWS\nallot 12 A SC\nend round\n";
    let rows = [row(3, 9, 0, StepKind::Ews), row(3, 12, 0, StepKind::Sc)];
    match read_round(alloc, season, text.as_bytes()) {
        Ok(read) => read.round == 3 && read.rows.as_slice() == rows.as_slice(),
        Err(_) => false,
    }
}

/// Whether both are for the season.
fn both_are_read(alloc: Global) -> bool {
    match Season::from_text(alloc, SEASON.as_bytes()) {
        Ok(season) => final_is_read(alloc, &season) && round_is_read(alloc, &season),
        Err(_) => false,
    }
}

#[test]
fn final_admissions_and_a_round_are_read_back(rt: HostRuntime) {
    assert!(rt; both_are_read(rt.alloc()));
}

#[test]
fn damaged_final_admissions_tell_their_line(rt: HostRuntime) {
    assert!(rt; texts_tell(rt.alloc(), DAMAGED_FINALS, &[]));
}

#[test]
fn a_last_line_without_its_end_may_begin_one(rt: HostRuntime) {
    assert!(rt; texts_tell(rt.alloc(), BEGUN_FINALS, &[]));
}

#[test]
fn damaged_rounds_tell_their_line(rt: HostRuntime) {
    assert!(rt; texts_tell(rt.alloc(), &[], DAMAGED_ROUNDS));
}
