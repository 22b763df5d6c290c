// What the words of a command line ask for.
ghost use Rattle.std.specs.Prelude.{◌≡◌, ◌≤◌, [], ◌∷◌, ℕ, List, true, IsErrOf, IfNone, IfOk, IfSome, OnOk, codes, map};
ghost use Rattle.std.specs.Fmt.{decimal};
ghost use Rattle.command_words.specs.Parts.{ArePlain, AreParts, NamePlain, is_plain};
ghost use Rattle.command_words.specs.Words.{AreServiceWords, IsNamed, Spell, SpellNothing, file_of, service_of, store_of, word_of, word_out, word_start};
ghost use Rattle.command_words.specs.declared.words.OutKind.{OutKind as AnyOutKind};
ghost use Rattle.command_words.specs.declared.words.Start.{Start as AnyStart};
ghost use Rattle.command_words.specs.declared.words.WordsFault.TheVariants.{OutOfMemory as NoMemory};

use crate::parts::{Parts, parts_of};
use office_base::{OutOfMemory, Text, Words};
use office_text::laws::numbers_are_inverse;
use office_text::read_number;
use std::alloc::{AllocError, AllocFailed, Global};

// How many candidates a generated season may have.
const MOST_CANDIDATES: u32 = 100_000;

// How many connections each worker of a served office may take, how many workers there may be, and the last port.
const MOST_CONNECTIONS: u32 = 100_000;

const MOST_WORKERS: u32 = 64;

const LAST_PORT: u32 = 65_535;

/// A command of the office.
#[derive(Drop)]
pub enum Command {
    /// Reads a step sheet and writes whom the step admits.
    Step,
    /// Reads a season bundle and writes how much it has.
    Check,
    /// Reads a season bundle with its requests and answers them over a keeper.
    Run(Store),
    /// Resumes the office that a keeper holds, and answers the requests that are read.
    Resume(Store),
    /// Reads a season bundle with home-state quotas and its requests, and answers them over a keeper.
    Units(Store),
    /// Resumes the office that a keeper holds, reads lists,
    /// and gives the seats that its final cut left vacant in a special round.
    Special(Store),
    /// Does the same, and also gives the list and the cutoffs of each programme in that round.
    SpecialLists(Store),
    /// Answers requests over HTTP at a port of this machine, with `workers` workers side by side, 1 to 64.
    /// Each worker takes at most `conns` connections, 1 to 100,000.
    /// `start` says how the office begins; the port is 1 to 65,535.
    Serve {
        conns: u32,
        workers: u8,
        start: Start,
        port: u16,
        store: Store,
    },
    /// Reads a dossier, which is a season bundle with requests and what was published, and writes whether what was
    /// published breaks a clause.
    Audit,
    /// Reads a dossier as `Audit` does, and also writes whether every published round is the best one.
    AuditBest,
    /// Generates a season bundle of 1 to 100,000 candidates from a seed, and writes it or runs it.
    Generate {
        n: u32,
        seed: u32,
        out: OutKind,
    },
}

impl Command {
    /// Returns where the command keeps its records, or None if it keeps none.
    pub fn store(self) -> Option<Store>
        ensures { result ≡ store_of self }
    {
        match self {
            Command::Run(store)
            | Command::Resume(store)
            | Command::Units(store)
            | Command::Special(store)
            | Command::SpecialLists(store)
            | Command::Serve { store, .. } => Some(store),
            Command::Step
            | Command::Check
            | Command::Audit
            | Command::AuditBest
            | Command::Generate { .. } => None,
        }
    }

    /// Returns how the command has an office served, or None if it serves none.
    pub fn service(&self) -> Option<Service>
        ensures { result ≡ service_of self.now }
    {
        match self {
            Command::Serve {
                conns,
                workers,
                start,
                port,
                ..
            } => Some(Service {
                conns: *conns,
                workers: *workers,
                start: *start,
                port: *port,
            }),
            Command::Run(_)
            | Command::Resume(_)
            | Command::Units(_)
            | Command::Special(_)
            | Command::SpecialLists(_)
            | Command::Step
            | Command::Check
            | Command::Audit
            | Command::AuditBest
            | Command::Generate { .. } => None,
        }
    }
}

/// How an office is served: with `workers` workers side by side, each of which takes at most `conns` connections.
/// `start` says how the office begins, and `port` at which port of this machine it answers.
#[derive(Clone, Copy)]
pub struct Service {
    pub conns: u32,
    pub workers: u8,
    pub start: Start,
    pub port: u16,
}

/// How a served office begins.
#[derive(Clone, Copy, PartialEq, Eq)]
pub enum Start {
    /// From a season bundle without requests, over a keeper that holds no season.
    New,
    /// From what the keeper holds.
    Kept,
}

/// Where a keeper keeps its records.
#[derive(Drop)]
pub enum Store {
    /// In memory, as long as the program runs.
    Memory,
    /// In the file of this name, which is not empty, does not begin with `-`, and is not `memory`.
    File(Text),
}

impl Store {
    /// Returns the name of the file, or None for a store in memory.
    pub fn file(self) -> Option<Text>
        ensures { result ≡ file_of self }
    {
        match self {
            Store::Memory => None,
            Store::File(name) => Some(name),
        }
    }
}

/// What is written of a generated season.
#[derive(Clone, Copy, PartialEq, Eq)]
pub enum OutKind {
    /// Its bundle.
    Text,
    /// Its summary: it is run over a keeper, and a summary is written.
    Run,
}

/// Why no command was read.
#[derive(Clone, Copy, Debug, PartialEq, Eq)]
pub enum WordsFault {
    /// The words spell no command.
    Usage,
    /// Memory ran out to divide the words, or for the name of a file.
    OutOfMemory,
}

impl From<OutOfMemory> for WordsFault {
    ghost from_gives = { λ _ fault. fault ≡ NoMemory };

    fn from(_: OutOfMemory) -> Self {
        WordsFault::OutOfMemory
    }
}

impl From<AllocError> for WordsFault {
    ghost from_gives = { λ _ fault. fault ≡ NoMemory };

    fn from(_: AllocError) -> Self {
        WordsFault::OutOfMemory
    }
}

impl<T: Drop> From<AllocFailed<T>> for WordsFault {
    ghost from_gives = { λ _ fault. fault ≡ NoMemory };

    fn from(_: AllocFailed<T>) -> Self {
        WordsFault::OutOfMemory
    }
}

/// Returns the command that the words spell. The first word is its name, and these follow it:
///
/// - nothing, after `step`, `check` and `audit`;
/// - `best`, after `audit`;
/// - `memory` or the name of a file, after `run`, `resume`, `units` and `special`;
/// - `lists`, and `memory` or the name of a file, after `special`;
/// - how many connections, how many workers, `new` or `kept`, a port, and `memory` or the name of a file,
///   after `serve`;
/// - how many candidates, a seed, and `text` or `run`, after `generate`.
///
/// It returns `Usage` only if they spell none. Any words can end with `OutOfMemory`.
pub fn read_words(alloc: Global, words: &Words) -> Result<Command, WordsFault>
    ensures command { IfOk result (Spell words.now) }
    ensures usage { IsErrOf result WordsFault.Usage → SpellNothing words.now }
{
    numbers_are_inverse();
    match line_of(alloc, words) {
        Ok(line) => read_line(alloc, line.as_slice()),
        Err(fault) => Err(fault),
    }
}

/// Returns the command that the words of a line spell. No word may be empty or begin with `-`.
fn read_line(alloc: Global, line: &[&str]) -> Result<Command, WordsFault>
    requires { ArePlain (map (λ word. word.now) line.now) }
    ensures command { IfOk result (Spell (map (λ word. word.now) line.now)) }
    ensures usage { IsErrOf result WordsFault.Usage
        → SpellNothing (map (λ word. word.now) line.now) }
{
    match parts_of(alloc, line) {
        Ok(parts) => command_of(alloc, parts),
        Err(fault) => Err(fault),
    }
}

/// Returns the words as texts. A word that is empty or begins with `-` is in no command.
fn line_of(alloc: Global, words: &Words) -> Result<Vec<&str>, WordsFault>
    ensures line { IfOk result (λ line. map (λ word. word.now) line.items ≡ words.now) }
    ensures plain { OnOk result (ArePlain words.now) }
    ensures usage { IsErrOf result WordsFault.Usage → ¬ ArePlain words.now }
{
    let mut line = Vec::new(alloc);
    for at in 0..words.len() {
        let Some(word) = words.word(at) else {
            unreachable!();
        };
        if !is_plain(word) {
            return Err(WordsFault::Usage);
        }
        line.push(word)?;
    }
    Ok(line)
}

/// Returns whether a word is not empty and does not begin with `-`.
fn is_plain(word: &str) -> bool
    ensures { result ≡ is_plain word.now }
{
    match word.as_bytes() {
        [] => false,
        [byte, ..] => *byte != b'-',
    }
}

/// Returns the command of these words. The second and the last of six may not be empty or begin with `-`.
fn command_of(alloc: Global, parts: Parts<'_>) -> Result<Command, WordsFault>
    requires { NamePlain parts }
    ensures some { IfOk result (λ command. (words : List (List ℕ))
        → AreParts words parts.entry → Spell words command) }
    ensures none { IsErrOf result WordsFault.Usage → (words : List (List ℕ))
        → AreParts words parts.entry → SpellNothing words }
{
    let Some(name) = parts.command else {
        return Err(WordsFault::Usage);
    };
    let Some(first) = parts.first else {
        return read_name(name);
    };
    let Some(second) = parts.second else {
        return read_store(alloc, name, first);
    };
    let Some(third) = parts.third else {
        return read_lists(alloc, name, first, second);
    };
    let Some(fourth) = parts.fourth else {
        return read_season(name, first, second, third);
    };
    let Some(fifth) = parts.fifth else {
        return Err(WordsFault::Usage);
    };
    read_service(alloc, name, first, second, third, fourth, fifth)
}

/// Returns the command of this name alone.
fn read_name(name: &str) -> Result<Command, WordsFault>
    ensures command { IfOk result (Spell (name.now ∷ [])) }
    ensures none { IsErrOf result WordsFault.Usage → SpellNothing (name.now ∷ []) }
{
    match name {
        "step" => Ok(Command::Step),
        "check" => Ok(Command::Check),
        "audit" => Ok(Command::Audit),
        _ => Err(WordsFault::Usage),
    }
}

/// Returns the command of this name over the store of this word, or `audit` with it.
fn read_store(alloc: Global, name: &str, word: &str) -> Result<Command, WordsFault>
    requires { is_plain word.now ≡ true }
    ensures command { IfOk result (Spell (name.now ∷ word.now ∷ [])) }
    ensures none { IsErrOf result WordsFault.Usage → SpellNothing (name.now ∷ word.now ∷ []) }
{
    match name {
        "run" => Ok(Command::Run(store_of(alloc, word)?)),
        "resume" => Ok(Command::Resume(store_of(alloc, word)?)),
        "units" => Ok(Command::Units(store_of(alloc, word)?)),
        "special" => Ok(Command::Special(store_of(alloc, word)?)),
        "audit" => match word {
            "best" => Ok(Command::AuditBest),
            _ => Err(WordsFault::Usage),
        },
        _ => Err(WordsFault::Usage),
    }
}

/// Returns `special` with the word `lists` over the store of this word, which is not empty and does not begin with `-`.
fn read_lists(alloc: Global, name: &str, word: &str, store: &str) -> Result<Command, WordsFault>
    requires { is_plain store.now ≡ true }
    ensures command { IfOk result (Spell (name.now ∷ word.now ∷ store.now ∷ [])) }
    ensures none { IsErrOf result WordsFault.Usage
        → SpellNothing (name.now ∷ word.now ∷ store.now ∷ []) }
{
    if name != "special" || word != "lists" {
        return Err(WordsFault::Usage);
    }
    Ok(Command::SpecialLists(store_of(alloc, store)?))
}

/// Returns the store of a word that is not empty and does not begin with `-`.
fn store_of(alloc: Global, word: &str) -> Result<Store, OutOfMemory>
    requires { is_plain word.now ≡ true }
    ensures { IfOk result (λ store. (word.now ≡ word_of store) × IsNamed store) }
{
    match word {
        "memory" => Ok(Store::Memory),
        _ => {
            let mut name = Text::new(alloc);
            name.extend_from_slice(word.as_bytes())?;
            Ok(Store::File(name))
        }
    }
}

/// Returns the command of this name with two numbers and this last word.
fn read_season(name: &str, first: &str, second: &str, out: &str) -> Result<Command, WordsFault>
    ensures command { IfOk result (Spell (name.now ∷ first.now ∷ second.now ∷ out.now ∷ [])) }
    ensures none { IsErrOf result WordsFault.Usage
        → SpellNothing (name.now ∷ first.now ∷ second.now ∷ out.now ∷ []) }
{
    season_of(name, first, second, out).ok_or(WordsFault::Usage)
}

/// Returns the same command, and None if there is none.
fn season_of(name: &str, first: &str, second: &str, out: &str) -> Option<Command>
    ensures command { IfSome result (Spell (name.now ∷ first.now ∷ second.now ∷ out.now ∷ [])) }
    ensures none { IfNone result (SpellNothing (name.now ∷ first.now ∷ second.now ∷ out.now ∷ [])) }
{
    numbers_are_inverse();
    if name != "generate" {
        return None;
    }
    let n = read_number(first.as_bytes(), 1, MOST_CANDIDATES)?;
    let seed = read_number(second.as_bytes(), 0, u32::MAX)?;
    let out = read_out(out)?;
    Some(Command::Generate { n, seed, out })
}

/// Returns the command of this name with these words, of which the last is not empty and does not begin with `-`.
fn read_service(
    alloc: Global,
    name: &str,
    conns: &str,
    workers: &str,
    start: &str,
    port: &str,
    store: &str,
) -> Result<Command, WordsFault>
    requires { is_plain store.now ≡ true }
    ensures command { IfOk result
        (Spell (name.now ∷ conns.now ∷ workers.now ∷ start.now ∷ port.now ∷ store.now ∷ [])) }
    ensures none { IsErrOf result WordsFault.Usage → SpellNothing (name.now
        ∷ conns.now ∷ workers.now ∷ start.now ∷ port.now ∷ store.now ∷ []) }
{
    let Some(service) = service_of(name, conns, workers, start, port) else {
        return Err(WordsFault::Usage);
    };
    let store = store_of(alloc, store)?;
    Ok(Command::Serve {
        conns: service.conns,
        workers: service.workers,
        start: service.start,
        port: service.port,
        store,
    })
}

/// Returns how an office is served, by the words of `serve`. None if no store makes them a command.
fn service_of(name: &str, conns: &str, workers: &str, start: &str, port: &str) -> Option<Service>
    ensures some { IfSome result (λ service. (name.now ≡ codes "serve")
        × AreServiceWords service conns.now workers.now start.now port.now) }
    ensures none { IfNone result ((store : List ℕ)
        → SpellNothing (name.now ∷ conns.now ∷ workers.now ∷ start.now ∷ port.now ∷ store ∷ [])) }
{
    if name != "serve" {
        return None;
    }
    let conns = read_within(conns, MOST_CONNECTIONS)?;
    let workers = read_within(workers, MOST_WORKERS)? as u8;
    let start = read_start(start)?;
    let port = read_within(port, LAST_PORT)? as u16;
    Some(Service {
        conns,
        workers,
        start,
        port,
    })
}

/// Returns the number from 1 to the highest that a word spells.
fn read_within(word: &str, high: u32) -> Option<u32>
    ensures some { IfSome result (λ n. (word.now ≡ decimal n) × (1 ≤ n) × (n ≤ high)) }
    ensures none { IfNone result ((n : ℕ) → 1 ≤ n → n ≤ high → word.now ≡ decimal n → ⊥) }
{
    numbers_are_inverse();
    read_number(word.as_bytes(), 1, high)
}

/// Returns how a served office begins, by its word.
fn read_start(word: &str) -> Option<Start>
    ensures some { IfSome result (λ start. word.now ≡ word_start start) }
    ensures none { IfNone result ((start : AnyStart) → word.now ≡ word_start start → ⊥) }
{
    match word {
        "new" => Some(Start::New),
        "kept" => Some(Start::Kept),
        _ => None,
    }
}

/// Returns what is written, by its word.
fn read_out(word: &str) -> Option<OutKind>
    ensures some { IfSome result (λ out. word.now ≡ word_out out) }
    ensures none { IfNone result ((out : AnyOutKind) → word.now ≡ word_out out → ⊥) }
{
    match word {
        "text" => Some(OutKind::Text),
        "run" => Some(OutKind::Run),
        _ => None,
    }
}
