// The program for the command `step` alone, over standard input and output.
//
// ./office becomes this program for that command if the whole program is not proved yet. It depends on few crates, so
// its proof is short. What `first_look` writes and how it ends is proved of its own clauses: `step` does what it does in
// the whole program, and other words are refused. Nothing depends on this crate.
#![tactic(auto)]

mod look;

use command_answers::tell_no_memory;
use look::first_look;
use office_base::OutOfMemory;
use standard_streams::{StandardInput, StandardOutput, tell_unheld, words_of};
use std::io::IsTerminal;
use std::process::ExitCode;

fn main(rt: HostRuntime) -> ExitCode {
    let alloc = rt.alloc();
    let output = rt.stdout();
    let at_once = output.is_terminal();
    let Ok(mut sink) = StandardOutput::new(alloc, output, at_once) else {
        return ExitCode::from(tell_unheld(&mut rt.stdout()).code());
    };
    let mut source = StandardInput::new(rt.stdin());
    let status = match words_of(&rt, alloc) {
        Ok(words) => first_look(alloc, &words, &mut source, &mut sink),
        Err(OutOfMemory) => tell_no_memory(&mut sink),
    };
    let (_, status) = sink.end(status);
    ExitCode::from(status.code())
}
