// The program for a first look at a season: `check`, `run memory` and `generate`, over standard input and output.
//
// ./office becomes this program for these words if the whole program is not proved yet. It depends on no database and
// on no sockets, so its proof takes less than half of the time. What `first_look` writes and how it ends is proved of its
// own clause: under these words it does what the whole program does, and it refuses all others. Nothing depends on this crate.
#![tactic(auto)]

mod look;

use command_answers::tell_no_memory;
use look::first_look;
use office_base::OutOfMemory;
use standard_streams::{StandardInput, StandardOutput, tell_unheld, words_of};
use std::io::IsTerminal;
use std::process::ExitCode;

fn main(rt: HostRuntime) -> ExitCode {
    let alloc = rt.alloc();
    let output = rt.stdout();
    let at_once = output.is_terminal();
    let Ok(mut sink) = StandardOutput::new(alloc, output, at_once) else {
        return ExitCode::from(tell_unheld(&mut rt.stdout()).code());
    };
    let mut source = StandardInput::new(rt.stdin());
    let status = match words_of(&rt, alloc) {
        Ok(words) => first_look(alloc, &words, &mut source, &mut sink),
        Err(OutOfMemory) => tell_no_memory(&mut sink),
    };
    let (_, status) = sink.end(status);
    ExitCode::from(status.code())
}
