// The words of a command line in their places, divided by `clap`.
ghost use Rattle.std.specs.Prelude.{◌≡◌, ◌↔◌, ◌<◌, ◌⊎◌, IfOk, IsErrOf, length, map};
ghost use Rattle.clap.specs.Values.{kind_of};
ghost use Rattle.clap.specs.Words.{app_of, found_of, rows_of};
ghost use Rattle.command_words.specs.Parts.{ArePlain, AreParts, AreRows, program, short_program};

use crate::words::WordsFault;
use clap::error::ErrorKind;
use clap::{Arg, ArgMatches, Command as Parser, Error};
use std::alloc::{AllocError, Global};

/// The words of a command line, each in its place.
#[derive(Clone, Copy)]
pub struct Parts<'a> {
    pub command: Option<&'a str>,
    pub first: Option<&'a str>,
    pub second: Option<&'a str>,
    pub third: Option<&'a str>,
    pub fourth: Option<&'a str>,
    pub fifth: Option<&'a str>,
}

/// Returns the places of the words. No word may be empty or begin with `-`.
/// It returns `Usage` only if there is no word, or more than six.
pub fn parts_of<'a>(alloc: Global, line: &'a [&'a str]) -> Result<Parts<'a>, WordsFault>
    requires { ArePlain (map (λ word. word.now) line.now) }
    ensures parts { IfOk result (AreParts (map (λ word. word.now) line.entry.now)) }
    ensures usage { IsErrOf result WordsFault.Usage
        → (length line.entry.now ≡ 0) ⊎ (6 < length line.entry.now) }
{
    let matches = divided(alloc, line)?;
    Ok(Parts {
        command: matches.get_str("command"),
        first: matches.get_str("first"),
        second: matches.get_str("second"),
        third: matches.get_str("third"),
        fourth: matches.get_str("fourth"),
        fifth: matches.get_str("fifth"),
    })
}

/// Returns what `clap` finds in the words. No word may be empty or begin with `-`.
fn divided<'a>(alloc: Global, line: &'a [&'a str]) -> Result<ArgMatches<'a>, WordsFault>
    requires { ArePlain (map (λ word. word.now) line.now) }
    ensures rows { IfOk result (λ matches.
        AreRows (map (λ word. word.now) line.entry.now) (rows_of (found_of matches))) }
    ensures usage { IsErrOf result WordsFault.Usage
        → (length line.entry.now ≡ 0) ⊎ (6 < length line.entry.now) }
{
    let parser = parser(alloc)?;
    match parser.try_get_matches_from(line) {
        Ok(matches) => Ok(matches),
        Err(error) => Err(fault_of(&error)),
    }
}

/// Returns the fault for an error of `clap`.
fn fault_of(error: &Error) -> WordsFault
    ensures { (result ≡ WordsFault.OutOfMemory) ↔ (kind_of error.now ≡ ErrorKind.OutOfMemory) }
{
    match error.kind() {
        ErrorKind::OutOfMemory => WordsFault::OutOfMemory,
        _ => WordsFault::Usage,
    }
}

/// Returns what `clap` reads: a command, and up to five words after it.
fn parser<'a>(alloc: Global) -> Result<Parser<'a>, AllocError>
    ensures { IfOk result (λ parser. app_of parser ≡ program) }
{
    let third = Arg::new(alloc, "third");
    let fourth = Arg::new(alloc, "fourth");
    let fifth = Arg::new(alloc, "fifth");
    let named = short_parser(alloc)?;
    named.arg(third)?.arg(fourth)?.arg(fifth)
}

/// Returns a parser for a command, and up to two words after it.
fn short_parser<'a>(alloc: Global) -> Result<Parser<'a>, AllocError>
    ensures { IfOk result (λ parser. app_of parser ≡ short_program) }
{
    let command = Arg::new(alloc, "command").required(true);
    let first = Arg::new(alloc, "first");
    let second = Arg::new(alloc, "second");
    let named = Parser::new(alloc, "allocation_cli").no_binary_name(true);
    named.arg(command)?.arg(first)?.arg(second)
}
