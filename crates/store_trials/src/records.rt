// What the keeper refuses, and which records it has then.
use crate::stores::{
    Put, Records, Store, after, allot, answer, empty, holds, holds_nothing, over, puts, raise,
    refuses, refuses_load,
};
use keeper_mem::{KeepFault, Keeper};
use kept_rows::{AllotRow, AnswerRow, RaiseRow};
use office_base::{Choice, StepKind};
use std::alloc::Global;
use std::test::Fail;

/// Longer than two parts, and no multiple of one.
const LENGTH: usize = 150_001;

fn text(alloc: Global) -> Result<Vec<u8>, Fail> {
    let mut text = vec![in alloc; b'x'; LENGTH]?;
    text.push(b'y')?;
    Ok(text)
}

fn answers() -> [AnswerRow; 4] {
    [
        answer(1, 999_999_999, 1, Choice::Float),
        answer(1, 7, 1, Choice::Freeze),
        answer(1, 7, 2, Choice::Slide),
        answer(65_535, u32::MAX, 65_535, Choice::Withdraw),
    ]
}

fn raises() -> [RaiseRow; 3] {
    [
        raise(1, 3, StepKind::Open, 2),
        raise(1, 0, StepKind::Ews, 4_000),
        raise(2, 65_535, StepKind::Obc, 1),
    ]
}

fn first_cut() -> [AllotRow; 3] {
    [
        allot(1, 5, 0, StepKind::Sc),
        allot(1, 7, 65_535, StepKind::St),
        allot(1, 999_999_999, 1, StepKind::Dereserved),
    ]
}

fn puts_rows(keeper: &mut Store) -> bool {
    for row in answers() {
        if !puts(keeper, &[Put::Answer(row)]) {
            return false;
        }
    }
    for row in raises() {
        if !puts(keeper, &[Put::Raise(row)]) {
            return false;
        }
    }
    puts(keeper, &[Put::Cut(&first_cut())])
}

/// Whether a season of the text is put, with answers, raises and one cut.
fn puts_all(keeper: &mut Store, text: &[u8]) -> bool {
    puts(keeper, &[Put::Season(text), Put::Room(100)]) && puts_rows(keeper)
}

/// Whether it holds all that was put, with these seats after so many cuts.
fn holds_all(
    alloc: Global,
    keeper: &mut Store,
    season: &[u8],
    allots: &[AllotRow],
    cuts: u16,
) -> bool {
    let records = Records {
        season,
        answers: &answers(),
        raises: &raises(),
        allots,
        cuts,
    };
    holds(alloc, keeper, &records)
}

/// Whether another season, a turn that is used and seats that are published are refused.
fn refuses_repeats(keeper: &mut Store) -> bool {
    let seats = [
        allot(2, 1, 0, StepKind::Open),
        allot(1, 5, 0, StepKind::Open),
    ];
    refuses(keeper, &Put::Season(b"other"))
        && refuses(keeper, &Put::Answer(answer(1, 7, 2, Choice::Float)))
        && refuses(keeper, &Put::Cut(&seats))
}

/// Whether repeats are refused after all was put and its tables were made once more, and three faults are counted.
fn is_left(alloc: Global, keeper: &mut Store, text: &[u8]) -> bool {
    puts_all(keeper, text)
        && keeper.make_tables().is_ok()
        && keeper.faults() == 0
        && refuses_repeats(keeper)
        && holds_all(alloc, keeper, text, &first_cut(), 1)
        && keeper.faults() == 3
}

#[test]
fn what_is_refused_leaves_the_records(rt: HostRuntime) -> Result<(), Fail> {
    let alloc = rt.alloc();
    let text = text(alloc)?;
    let mut keeper = empty(alloc)?;
    assert!(rt; is_left(alloc, &mut keeper, &text));
    Ok(())
}

fn refuses_pair(keeper: &mut Store, first: AllotRow, second: AllotRow) -> bool {
    refuses(keeper, &Put::Cut(&[first, second]))
}

/// Whether seats that do not rise by round and candidate above those of the first cut are refused.
fn refuses_disorder(keeper: &mut Store) -> bool {
    let open = StepKind::Open;
    refuses_pair(
        keeper,
        allot(1, 1_000_000_000, 0, open),
        allot(1, 999_999_999, 0, open),
    ) && refuses_pair(keeper, allot(2, 1, 0, open), allot(2, 1, 1, open))
        && refuses_pair(keeper, allot(3, 1, 0, open), allot(2, 2, 1, open))
        && refuses_pair(keeper, allot(1, 6, 0, open), allot(2, 1, 0, open))
}

/// Whether seats after the first cut are put where they rise, and only then.
fn takes_rising(keeper: &mut Store) -> bool {
    let rising = [
        allot(2, 1, 0, StepKind::Open),
        allot(2, 2, 0, StepKind::Open),
    ];
    puts_all(keeper, b"text") && refuses_disorder(keeper) && puts(keeper, &[Put::Cut(&rising)])
}

#[test]
fn seats_are_put_in_their_order_alone(rt: HostRuntime) -> Result<(), Fail> {
    let mut keeper = empty(rt.alloc())?;
    assert!(rt; takes_rising(&mut keeper));
    Ok(())
}

/// Whether nothing is found, put and loaded where there are no tables.
fn is_without_tables(alloc: Global, keeper: &mut Store) -> bool {
    matches!(keeper.has_season(), Err(KeepFault::Failed))
        && refuses(keeper, &Put::Season(b"text"))
        && refuses_load(alloc, keeper)
}

#[test]
fn a_database_without_tables_is_a_fault(rt: HostRuntime) -> Result<(), Fail> {
    let alloc = rt.alloc();
    let mut keeper = over(alloc, "")?;
    assert!(rt; is_without_tables(alloc, &mut keeper));
    Ok(())
}

/// Whether it holds a season of this text, and nothing more.
fn holds_season(alloc: Global, keeper: &mut Store, season: &[u8]) -> bool {
    let records = Records {
        season,
        answers: &[],
        raises: &[],
        allots: &[],
        cuts: 0,
    };
    holds(alloc, keeper, &records)
}

/// Whether a cut is refused where there is no season, and the empty text then becomes one.
fn takes_empty_text(alloc: Global, keeper: &mut Store) -> bool {
    holds_nothing(alloc, keeper)
        && refuses(keeper, &Put::Cut(&[]))
        && holds_nothing(alloc, keeper)
        && puts(keeper, &[Put::Season(&[])])
        && holds_season(alloc, keeper, &[])
}

#[test]
fn a_cut_without_a_season_is_a_fault(rt: HostRuntime) -> Result<(), Fail> {
    let alloc = rt.alloc();
    let mut keeper = empty(alloc)?;
    assert!(rt; takes_empty_text(alloc, &mut keeper));
    Ok(())
}

/// Whether a season is refused inside a transaction of others, and put after its end.
fn waits_for_others(alloc: Global) -> Result<bool, Fail> {
    let mut keeper = after(empty(alloc)?, "BEGIN")?;
    let is_refused = refuses(&mut keeper, &Put::Season(b"text"));
    let mut keeper = after(keeper, "COMMIT")?;
    Ok(
        is_refused
            && puts(&mut keeper, &[Put::Season(b"text")])
            && keeper.faults() == 0
            && holds_season(alloc, &mut keeper, b"text"),
    )
}

#[test]
fn a_transaction_of_others_is_a_fault(rt: HostRuntime) -> Result<(), Fail> {
    assert!(rt; waits_for_others(rt.alloc())?);
    Ok(())
}
