// How far a served office is at the end, and how that is written.
ghost use Rattle.std.specs.Prelude.{◌≡◌, ◌≢◌, ◌++◌, codes, length, IfOk, OnOk};
ghost use Rattle.std.specs.Fmt.{decimal};
ghost use Rattle.office_base.specs.Outside.{Rose};
ghost use Rattle.command_answers.specs.Writes.{IsTextOut};
ghost use Rattle.reply_texts.specs.Replies.{state_line};
ghost use Rattle.office_commands.specs.Ending.{served_status, told_status, told_text};
ghost use Rattle.office_commands.specs.Serve.{door_line, served_text};

use command_answers::{Status, tell_no_memory, write_answer};
use itoa::Buffer;
use keeper_mem::Keeper;
use office_base::{OutOfMemory, Sink, Text};
use office_moves::Reply;
use reply_texts::reply_text;
use round_cut::Office;
use std::alloc::Global;

/// Returns the text of how far the office is, how many entries its history has, and whether a door failed.
pub(crate) fn served_text<P: Keeper>(
    alloc: Global,
    office: &Office<P>,
    door_failed: bool,
) -> Result<Text, OutOfMemory>
    ensures { IfOk result (λ text. text
        ≡ served_text office.now.season office.now.state (length office.now.entries) door_failed) }
{
    let mut out = state_text(alloc, office)?;
    push_entries(&mut out, office.entries().len(), door_failed)?;
    Ok(out)
}

/// Returns the line of how far the office is.
fn state_text<P: Keeper>(alloc: Global, office: &Office<P>) -> Result<Text, OutOfMemory>
    ensures { IfOk result (λ text. text ≡ state_line office.now.state.now
        office.now.season.rounds (length office.now.state.rounds)) }
{
    let season = office.season();
    let far = Reply::StateIs {
        now: office.now(),
        rounds: season.rounds,
        published: office.published(),
    };
    reply_text(alloc, &season.matrix, &[], None, &[], &far)
}

/// Puts the line of how many entries there are, and the line of a door that failed.
fn push_entries(out: &mut Text, entries: usize, door_failed: bool) -> Result<(), OutOfMemory>
    ensures { OnOk result (out.new
        ≡ out.old ++ codes "entries " ++ decimal entries ++ codes "\n" ++ door_line door_failed) }
{
    let mut buffer = Buffer::new();
    out.extend_from_slice(b"entries ")?;
    out.extend_from_slice(buffer.format(entries).as_bytes())?;
    out.extend_from_slice(b"\n")?;
    if !door_failed {
        return Ok(());
    }
    out.extend_from_slice(b"fault: door\n")
}

/// Writes how far the office is, with the status of that, or that memory ran out for it.
pub(crate) fn write_served<K: Sink>(
    sink: &mut K,
    text: Result<Text, OutOfMemory>,
    door_failed: bool,
) -> Status
    ensures told { IsTextOut (told_status door_failed text) (told_text text) (K.written sink.old)
        (K.written sink.new) (Rose (K.faults sink.old) (K.faults sink.new)) result }
    ensures steady { result ≢ Status.WriteFault → K.faults sink.new ≡ K.faults sink.old }
{
    match text {
        Ok(text) => write_answer(sink, text.as_slice(), status_of(door_failed)),
        Err(OutOfMemory) => tell_no_memory(sink),
    }
}

/// Returns the status of an office that was served.
fn status_of(door_failed: bool) -> Status
    ensures { result ≡ served_status door_failed }
{
    if door_failed {
        Status::DoorFault
    } else {
        Status::Ok
    }
}
