//! The words of the command line.
ghost use Rattle.std.specs.Prelude.{◌≡◌, ◌≤◌, None, IsErrOf, IfOk, IfSome, Some, false, map};
ghost use Rattle.std.specs.Prelude.{option_map, string_bytes, true};
ghost use Rattle.std.specs.Option.{option_map_or};
ghost use Rattle.clap.specs.Words.{app_of, found_of, kind_of, rows_of};
ghost use Rattle.clap.specs.declared.builder.command.Command.TheViews.{out-Command};
ghost use Rattle.program.specs.Words.{IsSized, asked_by, bench_app, bench_asks, command_asks};
ghost use Rattle.program.specs.Words.{help_app, help_asks, is_command, log_app, log_asks};
ghost use Rattle.program.specs.Words.{mainline_app, meaning, named_app, number_at, number_in};
ghost use Rattle.program.specs.Words.{run_app, run_asks, stopped_asks};

use clap::error::ErrorKind;
use clap::{Arg, ArgMatches, Command, Error};
use std::alloc::{AllocError, Global};

/// The most rounds of writes of a generated workload.
const MOST_SIZE: u64 = 4096;

/// What the words ask for.
#[derive(Clone, Copy)]
pub enum Work<'a> {
    /// To run a workload, to export to a path, and to keep its commits in the log at a path. Without
    /// the first the export is dropped, and without the second no log is kept.
    Run {
        export: Option<&'a str>,
        log: Option<&'a str>,
    },
    /// To show a stream.
    Show,
    /// To check an output of a workload.
    Check,
    /// To run the workload that a seed and a size generate.
    Bench {
        seed: u64,
        size: u32,
    },
    /// To tell what the log at this path holds.
    Log(&'a str),
    /// To tell what the program does.
    Help,
    /// To tell the program's version.
    Version,
}

/// Why the words are not judged to ask for some work.
#[derive(Clone, Copy, Debug, PartialEq, Eq)]
pub enum WordsFault {
    /// The words ask for nothing that the program does.
    Usage,
    /// There was no memory to judge them.
    Memory,
}

/// What the words ask for: the program's name, and then what its command takes.
pub fn work_of<'a>(alloc: Global, words: &'a [String]) -> Result<Work<'a>, WordsFault>
    ensures ok { IfOk result (λ work. asked_by (map string_bytes words.entry.now)
        ≡ Some (meaning work)) }
    ensures sized { IfOk result IsSized }
    ensures usage { IsErrOf result WordsFault.Usage → asked_by (map string_bytes words.entry.now)
        ≡ None }
{
    let Ok(command) = command(alloc) else {
        return Err(WordsFault::Memory);
    };
    match command.try_get_matches_from(words) {
        Ok(matches) => match matches.subcommand() {
            Some((name, inner)) => match named(name, inner) {
                Some(work) => Ok(work),
                None => Err(WordsFault::Usage),
            },
            None => Err(WordsFault::Usage),
        },
        Err(fault) => stopped(&fault),
    }
}

/// What words ask for at which the parse stopped: for help, for the version, or for nothing.
fn stopped<'a>(fault: &Error) -> Result<Work<'a>, WordsFault>
    ensures ok { IfOk result (λ work. stopped_asks (kind_of fault.now) ≡ Some (meaning work)) }
    ensures sized { IfOk result IsSized }
    ensures usage { IsErrOf result WordsFault.Usage → stopped_asks (kind_of fault.now) ≡ None }
    ensures memory { kind_of fault.now ≡ ErrorKind.OutOfMemory → IsErrOf result WordsFault.Memory }
{
    match fault.kind() {
        ErrorKind::DisplayHelp => Ok(Work::Help),
        ErrorKind::DisplayVersion => Ok(Work::Version),
        ErrorKind::OutOfMemory => Err(WordsFault::Memory),
        _ => Err(WordsFault::Usage),
    }
}

/// What the subcommand of this name asks for.
fn named<'a>(name: &str, matches: &ArgMatches<'a>) -> Option<Work<'a>>
    ensures asked { option_map meaning result
        ≡ command_asks name.now (rows_of (found_of matches.now)) }
    ensures sized { IfSome result IsSized }
{
    if name == "run" {
        Some(run_of(matches))
    } else if name == "show" {
        Some(Work::Show)
    } else if name == "check" {
        Some(Work::Check)
    } else if name == "bench" {
        bench_of(matches)
    } else if name == "log" {
        log_of(matches)
    } else if name == "help" {
        help_of(matches)
    } else {
        None
    }
}

/// The paths that the words give.
fn run_of<'a>(matches: &ArgMatches<'a>) -> Work<'a>
    ensures asked { Some (meaning result) ≡ run_asks (rows_of (found_of matches.now)) }
    ensures sized { IsSized result }
{
    Work::Run {
        export: matches.get_str("export"),
        log: matches.get_str("log"),
    }
}

/// Help, where the words name a command of the program or none.
fn help_of<'a>(matches: &ArgMatches<'a>) -> Option<Work<'a>>
    ensures asked { option_map meaning result ≡ help_asks (rows_of (found_of matches.now)) }
    ensures sized { IfSome result IsSized }
{
    let has_help = is_command_or_none(matches.get_str("command"));
    if has_help { Some(Work::Help) } else { None }
}

/// Whether there is no word, or one that is a command of the program.
fn is_command_or_none(word: Option<&str>) -> bool
    ensures { result ≡ option_map_or is_command (option_map (λ w. w.now) word.entry) true }
{
    match word {
        Some(word) => is_command(word),
        None => true,
    }
}

/// Whether a word is a command of the program.
fn is_command(word: &str) -> bool
    ensures { result ≡ is_command word.now }
{
    word == "run"
        || word == "show"
        || word == "check"
        || word == "bench"
        || word == "log"
        || word == "help"
}

/// The seed and the size that the words give.
fn bench_of<'a>(matches: &ArgMatches<'a>) -> Option<Work<'a>>
    ensures asked { option_map meaning result ≡ bench_asks (rows_of (found_of matches.now)) }
    ensures sized { IfSome result IsSized }
{
    let seed = number_at(matches, "seed", 0, u64::MAX)?;
    let size = number_at(matches, "size", 1, MOST_SIZE)?;
    Some(Work::Bench {
        seed,
        size: size as u32,
    })
}

/// The path of the log that the words give.
fn log_of<'a>(matches: &ArgMatches<'a>) -> Option<Work<'a>>
    ensures asked { option_map meaning result ≡ log_asks (rows_of (found_of matches.now)) }
    ensures sized { IfSome result IsSized }
{
    match matches.get_str("path") {
        Some(path) => Some(Work::Log(path)),
        None => None,
    }
}

/// The number that the first word under a name gives, where it lies between these two.
fn number_at(matches: &ArgMatches<'_>, name: &str, low: u64, high: u64) -> Option<u64>
    ensures number { result ≡ number_at name.now low high (rows_of (found_of matches.now)) }
    ensures most { IfSome result (λ number. number ≤ high) }
{
    match matches.get_str(name) {
        Some(word) => number_in(word, low, high),
        None => None,
    }
}

/// The number that a word gives, where it lies between these two.
fn number_in(word: &str, low: u64, high: u64) -> Option<u64>
    ensures number { result ≡ number_in low high word.now }
    ensures most { IfSome result (λ number. number ≤ high) }
{
    match word.parse::<u64>() {
        Ok(number) if low <= number && number <= high => Some(number),
        _ => None,
    }
}

/// The program's command.
fn command<'a>(alloc: Global) -> Result<Command<'a>, AllocError>
    ensures { IfOk result (λ command. app_of command ≡ mainline_app) }
{
    named_command(alloc)
        .subcommand(run_command(alloc)?)?
        .subcommand(Command::new(alloc, "show"))?
        .subcommand(Command::new(alloc, "check"))?
        .subcommand(bench_command(alloc)?)?
        .subcommand(log_command(alloc)?)?
        .subcommand(help_command(alloc)?)
}

/// The program's command without its subcommands. `help` is one of them, so none is added.
fn named_command<'a>(alloc: Global) -> Command<'a>
    ensures { app_of result ≡ named_app }
{
    Command::new(alloc, "mainline")
        .version("0.1.0")
        .disable_help_subcommand(true)
}

/// The command to tell what the program does, of one of its commands if it is given one.
fn help_command<'a>(alloc: Global) -> Result<Command<'a>, AllocError>
    ensures app { IfOk result (λ command. app_of command ≡ help_app) }
    ensures plain { IfOk result (λ command. (out-Command command).has_globals ≡ false) }
{
    Command::new(alloc, "help").arg(Arg::new(alloc, "command"))
}

/// The command to run a workload, with the path of its export and that of its log if it is given
/// them.
fn run_command<'a>(alloc: Global) -> Result<Command<'a>, AllocError>
    ensures app { IfOk result (λ command. app_of command ≡ run_app) }
    ensures plain { IfOk result (λ command. (out-Command command).has_globals ≡ false) }
{
    let export = Arg::new(alloc, "export").long("export");
    let log = Arg::new(alloc, "log").long("log");
    Command::new(alloc, "run").arg(export)?.arg(log)
}

/// The command to run a generated workload of a seed and a size.
fn bench_command<'a>(alloc: Global) -> Result<Command<'a>, AllocError>
    ensures app { IfOk result (λ command. app_of command ≡ bench_app) }
    ensures plain { IfOk result (λ command. (out-Command command).has_globals ≡ false) }
{
    let seed = Arg::new(alloc, "seed")
        .required(true)
        .value_parser(clap::value_parser!(u64));
    let size = Arg::new(alloc, "size")
        .required(true)
        .value_parser(clap::value_parser!(u16).range(1..=4096));
    Command::new(alloc, "bench").arg(seed)?.arg(size)
}

/// The command to tell what the log at a path holds.
fn log_command<'a>(alloc: Global) -> Result<Command<'a>, AllocError>
    ensures app { IfOk result (λ command. app_of command ≡ log_app) }
    ensures plain { IfOk result (λ command. (out-Command command).has_globals ≡ false) }
{
    Command::new(alloc, "log").arg(Arg::new(alloc, "path").required(true))
}
