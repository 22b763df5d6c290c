// The program. It passes the words, standard input, standard output, a keeper and doors to `allocate`, and exits with
// its status. The keeper is over the store that the words name, and the doors are at their port.
//
// `allocate`, of `office_commands`, is the one top call of the office. What it writes and how it ends is proved,
// for the words, the bytes and the doors that it is given. That these are the doors that the words name is proved here,
// and that the keeper is over the files that the words name: `over_store` says it for all that these two files may hold.
// Only `main` names the type at which nothing is known of them.
// The adapters over the real streams and sockets are the trusted edge: they count their errors, and hide their bytes.
// The tables of a keeper over a file are visible if nobody else writes the file and the disk returns what was written.
// No crate depends on this one, and it decides nothing of seats itself.
#![tactic(auto)]

ghost use Rattle.std.specs.Prelude.{◌≡◌, ◌≤◌, ◌⊎◌, IfErr, IfNone, IfOk, IfSome, IsErr, IsSome, length, map, option_map, replicate};
ghost use Rattle.std.specs.List.{AllByRecursion};
ghost use Rattle.sqlite_wal.specs.Files.{image_at};
ghost use Rattle.office_base.specs.Limits.{most_doors, most_connections};
ghost use Rattle.office_commands.specs.Keeping.{RunsWords};
ghost use Rattle.office_commands.specs.Named.{doors_named};
ghost use Rattle.allocation_cli.specs.Named.{AreDoorsFor, AreNamed, HaveTaken};
ghost use Rattle.allocation_cli.specs.Running.{RunsAt, RunsInMemory, RunsOver, RunsOverFiles, call_at, used};

use command_answers::{Status, tell_no_memory};
use command_words::laws::one_spelling;
use command_words::{Service, WordsFault, read_words};
use keeper_mem::{Keeper, SureKeeper, Teller};
use keeper_sqlite::SqliteKeeper;
use office_base::{OutOfMemory, Sink, Source, Words};
use office_commands::allocate;
use office_links::{Door, Link};
use pending_keeper::Pending;
use sqlite::{Alter, Start};
use standard_streams::{StandardInput, StandardOutput, tell_unheld, words_of};
use std::alloc::Global;
use std::io::IsTerminal;
use std::net::{Ipv4Addr, Net, TcpListener, TcpStream};
use std::process::ExitCode;
use std::rt::Env;
use std::sync::Wait;
use std::thread::Threads;
use system_edge::{
    Edge, FileKeeper, LoopbackDoor, LoopbackLink, StoreFile, SystemListener, Unknown, Watched,
    close_keeper, open_keeper,
};

// The exit status if the store that the words name cannot be opened, or the port cannot be bound.
const NO_OPENING: u8 = 1;

// The answers that report a failure of the store. The first of them is reported on standard error.
const STORE_FAULTS: Watched = Watched {
    start: b"HTTP/1.1 503 ",
    line: "answered 503: the store failed; later failures are not reported here",
};

// A door over a listener of the system, and a link over one of its streams.
type SystemDoor<'e> = LoopbackDoor<'e, SystemListener<TcpListener>, HostRuntime>;

type SystemLink<'e> = LoopbackLink<'e, TcpStream, HostRuntime>;

// What the program is called with: its words, the file that they name as the store, and how they have an office served.
// There is no file if the words name memory, and neither if they spell no command.
#[derive(Drop)]
struct Call<S: Start> {
    words: Words,
    file: Option<StoreFile<S>>,
    service: Option<Service>,
}

// What the words name and cannot be opened.
#[derive(Clone, Copy)]
enum Unopened {
    Store,
    Port,
}

fn main(rt: HostRuntime) -> ExitCode {
    let alloc = rt.alloc();
    let call = call_of(&rt, alloc, Unknown);
    let output = rt.stdout();
    // what a file keeps is written before more is kept
    let at_once = output.is_terminal() || keeps_a_file(&call);
    let Ok(mut sink) = StandardOutput::new(alloc, output, at_once) else {
        return ExitCode::from(tell_unheld(&mut rt.stdout()).code());
    };
    let mut source = StandardInput::new(rt.stdin());
    let ended = match call {
        Ok(call) => over_store(&rt, &rt, call, &mut source, &mut sink),
        Err(OutOfMemory) => Ok(tell_no_memory(&mut sink)),
    };
    let status = match ended {
        Ok(status) => status,
        Err(unopened) => return tell_unopened(&rt, unopened),
    };
    let (_, status) = sink.end(status);
    ExitCode::from(status.code())
}

// Reports what cannot be opened.
fn tell_unopened(rt: &HostRuntime, unopened: Unopened) -> ExitCode {
    let _ = match unopened {
        Unopened::Store => eprintln!(rt; "cannot open store"),
        Unopened::Port => eprintln!(rt; "cannot bind port"),
    };
    ExitCode::from(NO_OPENING)
}

// Returns whether the words name a file as the store.
fn keeps_a_file<S: Start>(call: &Result<Call<S>, OutOfMemory>) -> bool {
    match call {
        Ok(call) => call.file.is_some(),
        Err(_) => false,
    }
}

// Returns the words with the file and the service that they name. The file holds what `start` says.
fn call_of<S: Start>(
    rt: &(impl Env + AllocGlobal),
    alloc: Global,
    start: S,
) -> Result<Call<S>, OutOfMemory>
    ensures { IfOk result (λ call.
        AreNamed call.words (option_map (λ file. file.name) call.file) call.service) }
{
    let words = words_of(rt, alloc)?;
    match read_words(alloc, &words) {
        Ok(command) => {
            let service = command.service();
            let name = match command.store() {
                Some(store) => store.file(),
                None => None,
            };
            let file = match name {
                Some(name) => Some(StoreFile::new(name, start)),
                None => None,
            };
            Ok(Call {
                words,
                file,
                service,
            })
        }
        Err(WordsFault::Usage) => Ok(Call {
            words,
            file: None,
            service: None,
        }),
        Err(WordsFault::OutOfMemory) => Err(OutOfMemory),
    }
}

// Runs the words over the store that they name: a keeper over their file, whatever it holds, or a new one in memory.
// Nothing is read or written if the file cannot be opened, or the port cannot be bound.
// What was kept is in the file and its log, even if the log cannot be copied into the file at the end.
fn over_store<
    H: Threads + Wait + Sync + Net<Listener = TcpListener, Stream = TcpStream>,
    I: Source,
    K: Sink,
    S: Start + Send,
>(
    rt: &HostRuntime,
    host: &H,
    call: Call<S>,
    source: &mut I,
    sink: &mut K,
) -> Result<Status, Unopened>
    requires { AreNamed call.words (option_map (λ file. file.name) call.file) call.service }
    ensures memory { IfNone call.file (IfOk result (RunsInMemory ⟦<SureKeeper as Keeper>⟧
        ⟦<SystemDoor<'static> as Door>⟧ ⟦<SystemLink<'static> as Link>⟧ call.words call.service
        (used I.Source K.Sink source.old source.new sink.old sink.new))) }
    ensures file { IfSome call.file (λ _. IfOk result (RunsOverFiles ⟦<FileKeeper<S> as Keeper>⟧
        ⟦<SystemDoor<'static> as Door>⟧ ⟦<SystemLink<'static> as Link>⟧ (image_at S.Start)
        call.words call.service (used I.Source K.Sink source.old source.new sink.old sink.new))) }
    ensures unopened { IfErr result (λ what. ((what ≡ Unopened.Store) × IsSome call.file)
        ⊎ ((what ≡ Unopened.Port) × IsSome call.service)) }
    ensures spared { IsErr result → (source.new ≡ source.old) × (sink.new ≡ sink.old) }
{
    let Call {
        words,
        file,
        service,
    } = call;
    match file {
        None => over_memory(rt, host, &words, &service, source, sink),
        Some(file) => over_file(rt, host, &words, &service, source, sink, file),
    }
}

// Runs the words over a new keeper in memory.
fn over_memory<
    H: Threads + Wait + Sync + Net<Listener = TcpListener, Stream = TcpStream>,
    I: Source,
    K: Sink,
>(
    rt: &HostRuntime,
    host: &H,
    words: &Words,
    service: &Option<Service>,
    source: &mut I,
    sink: &mut K,
) -> Result<Status, Unopened>
    requires { (file : _) × AreNamed words.now file service.now }
    ensures runs { IfOk result (RunsInMemory ⟦<SureKeeper as Keeper>⟧
        ⟦<SystemDoor<'static> as Door>⟧ ⟦<SystemLink<'static> as Link>⟧ words.now service.now
        (used I.Source K.Sink source.old source.new sink.old sink.new)) }
    ensures unbound { IfErr result (λ what. (what ≡ Unopened.Port) × IsSome service.now) }
    ensures spared { IsErr result → (source.new ≡ source.old) × (sink.new ≡ sink.old) }
{
    let keeper = SureKeeper::new(rt.alloc());
    let (ended, memory) = answer(rt, host, words, service, source, sink, keeper);
    memory.tells();
    ended
}

// Runs the words over a keeper of this file, whatever it holds.
fn over_file<
    H: Threads + Wait + Sync + Net<Listener = TcpListener, Stream = TcpStream>,
    I: Source,
    K: Sink,
    S: Start + Send,
>(
    rt: &HostRuntime,
    host: &H,
    words: &Words,
    service: &Option<Service>,
    source: &mut I,
    sink: &mut K,
    file: StoreFile<S>,
) -> Result<Status, Unopened>
    requires { (file : _) × AreNamed words.now file service.now }
    ensures runs { IfOk result (RunsOverFiles ⟦<FileKeeper<S> as Keeper>⟧
        ⟦<SystemDoor<'static> as Door>⟧ ⟦<SystemLink<'static> as Link>⟧ (image_at S.Start)
        words.now service.now (used I.Source K.Sink source.old source.new sink.old sink.new)) }
    ensures unopened { IfErr result (λ what. (what ≡ Unopened.Store)
        ⊎ ((what ≡ Unopened.Port) × IsSome service.now)) }
    ensures spared { IsErr result → (source.new ≡ source.old) × (sink.new ≡ sink.old) }
{
    let Some(keeper) = open_keeper(rt, file) else {
        return Err(Unopened::Store);
    };
    let (ended, keeper) = answer_over(rt, host, words, service, source, sink, keeper);
    close_keeper(keeper);
    ended
}

// Runs the words over a keeper of any database, at the doors that they name. Under a service, rows wait above it and are put together.
fn answer_over<
    H: Threads + Wait + Sync + Net<Listener = TcpListener, Stream = TcpStream>,
    I: Source,
    K: Sink,
    A: Alter + Send,
>(
    rt: &HostRuntime,
    host: &H,
    words: &Words,
    service: &Option<Service>,
    source: &mut I,
    sink: &mut K,
    keeper: SqliteKeeper<A>,
) -> (Result<Status, Unopened>, SqliteKeeper<A>)
    requires { (file : _) × AreNamed words.now file service.now }
    ensures runs { IfOk result.0 (RunsOver ⟦<SqliteKeeper<A> as Keeper>⟧
        ⟦<SystemDoor<'static> as Door>⟧ ⟦<SystemLink<'static> as Link>⟧ service.now words.now
        (used I.Source K.Sink source.old source.new sink.old sink.new) keeper result.1) }
    ensures unbound { IfErr result.0 (λ what. (what ≡ Unopened.Port) × IsSome service.now) }
    ensures spared { IsErr result.0 → (source.new ≡ source.old) × (sink.new ≡ sink.old) }
{
    match service {
        None => answer(rt, host, words, service, source, sink, keeper),
        Some(_) => {
            let waiting = Pending::new(rt.alloc(), keeper);
            let (ended, waiting) = answer(rt, host, words, service, source, sink, waiting);
            (ended, waiting.into_keeper())
        }
    }
}

// Runs the words over this keeper, at the doors that they name.
fn answer<
    H: Threads + Wait + Sync + Net<Listener = TcpListener, Stream = TcpStream>,
    I: Source,
    K: Sink,
    P: Keeper + Send,
>(
    rt: &HostRuntime,
    host: &H,
    words: &Words,
    service: &Option<Service>,
    source: &mut I,
    sink: &mut K,
    keeper: P,
) -> (Result<Status, Unopened>, P)
    requires { (file : _) × AreNamed words.now file service.now }
    ensures runs { IfOk result.0 (RunsAt P.Keeper ⟦<SystemDoor<'static> as Door>⟧
        ⟦<SystemLink<'static> as Link>⟧ words.now service.now (used I.Source K.Sink
        source.old source.new sink.old sink.new) keeper result.1) }
    ensures unbound { IfErr result.0 (λ what. (what ≡ Unopened.Port) × IsSome service.now) }
    ensures spared { IsErr result.0 → (source.new ≡ source.old) × (sink.new ≡ sink.old) }
{
    one_spelling();
    let alloc = rt.alloc();
    let edge = Edge::new(*rt, STORE_FAULTS);
    let Some(mut doors) = doors_for(host, alloc, service, &edge) else {
        return (Err(Unopened::Port), keeper);
    };
    if let Some(service) = service {
        tell_service(rt, service);
    }
    let (status, keeper) = answer_at(host, alloc, words, source, sink, keeper, &mut doors);
    (Ok(status), keeper)
}

// Runs the words at these doors. That these are the doors of the words can be said only where the doors are arguments.
fn answer_at<H: Threads + Wait + Sync, I: Source, K: Sink, P: Keeper + Send>(
    host: &H,
    alloc: Global,
    words: &Words,
    source: &mut I,
    sink: &mut K,
    keeper: P,
    doors: &mut Vec<SystemDoor<'_>>,
) -> (Status, P)
    requires few { length doors.old.items ≤ most_doors }
    requires suit { AllByRecursion (λ d. d.left ≤ most_connections) doors.old.items }
    requires named { AreDoorsFor words.now (map (λ d. d.left) doors.old.items) }
    ensures runs { RunsWords words.now (call_at P.Keeper ⟦<SystemDoor<'static> as Door>⟧
        ⟦<SystemLink<'static> as Link>⟧ (used I.Source K.Sink source.old source.new
        sink.old sink.new) keeper result.1 doors.old.items doors.new.items) result.0 }
    ensures taken { result.0 ≡ Status.Ok → HaveTaken words.now
        (map (λ d. d.left) doors.old.items) (map (λ d. d.left) doors.new.items) }
{
    allocate(
        host,
        alloc,
        words,
        source,
        sink,
        keeper,
        doors.as_mut_slice(),
    )
}

// Returns the doors that a command asks for: those of its service, or none. It returns None if the port cannot be bound.
fn doors_for<'e, H: Net<Listener = TcpListener, Stream = TcpStream>>(
    host: &H,
    alloc: Global,
    service: &Option<Service>,
    edge: &'e Edge<HostRuntime>,
) -> Option<Vec<SystemDoor<'e>>>
    ensures named { IfSome result (λ doors. map (λ d. d.left) doors.items
        ≡ doors_named service.now) }
    ensures unbound { IfNone result (IsSome service.now) }
{
    match service {
        Some(service) => doors_of(host, alloc, service, edge),
        None => Some(Vec::new(alloc)),
    }
}

// Returns doors over one listener at the port of this machine: one for each worker, with as many connections to come
// as a worker takes. It returns None if the port cannot be bound.
fn doors_of<'e, H: Net<Listener = TcpListener, Stream = TcpStream>>(
    host: &H,
    alloc: Global,
    service: &Service,
    edge: &'e Edge<HostRuntime>,
) -> Option<Vec<SystemDoor<'e>>>
    ensures { IfSome result (λ doors. map (λ d. d.left) doors.items
        ≡ replicate service.now.workers service.now.conns) }
{
    let listener = TcpListener::bind(host, (Ipv4Addr::LOCALHOST, service.port)).ok()?;
    let mut doors = Vec::new(alloc);
    for made in 0..service.workers {
        let _ = made;
        let Ok(other) = listener.try_clone() else {
            return None;
        };
        let door = LoopbackDoor::new(SystemListener::new(other), service.conns, edge);
        if doors.push(door).is_err() {
            return None;
        }
    }
    Some(doors)
}

// Reports, on standard error, where an office is served, and how that ends.
fn tell_service(rt: &HostRuntime, service: &Service) {
    let Service {
        conns,
        workers,
        port,
        ..
    } = *service;
    let all = u64::from(conns) * u64::from(workers);
    let _ = eprintln!(rt;
        "serving at http://127.0.0.1:{port}: it ends by itself after {all} connections, {conns} to each of {workers} workers, or at Ctrl-C; what a file keeps stays"
    );
}
