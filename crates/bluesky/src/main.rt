//! `bluesky`, a file proxy: it serves files by NFS version 3 (RFC 1813) and keeps them in a cloud.
//! So far it replays recorded sessions: `bluesky replay --journal PATH --cloud PATH [--settings PATH]`.
#![tactic(auto)]

ghost use Rattle.std.specs.Prelude.{◌≡◌, ◌⊎◌, ◌*◌, [], ◌∷◌, drop, map, string_bytes, codes, IsTrue, ◌↔◌, IfOk, IfErr, IsErrOf};
ghost use Rattle.std.specs.Process.{exit_status};
ghost use Rattle.std.specs.Vec.Iter.{into_iter_items};
ghost use Rattle.sky_settings.specs.declared.settings.Fields.{Fields};
ghost use Rattle.sky_settings_file.specs.Table.{SaysSettings};
ghost use Rattle.sky_texts.specs.Ending.{exit_number};
ghost use Rattle.sky_words.specs.Words.{Says};
ghost use Rattle.sky_words.specs.declared.command.Command.TheVariants.{Replay};
ghost use Rattle.bluesky.specs.Asked.{SaysNone};

mod ending;
mod frames;
mod infallible;
mod laws;
mod run;
#[cfg(test)]
mod tests;
mod usage;
mod words;

pub use infallible::run_infallible;
pub use laws::{a_blank_site_can_be_opened, each_recording_has_one_reading};
pub use run::run;
use sky_base::{Paths, Status, Text};
use sky_real::{FileSite, StdinSource, StdoutSink};
use sky_settings_file::{SettingsFault, read_settings};
use sky_texts::Ending;
use sky_words::paths_of;
use std::alloc::Global;
use std::env::Args;
use std::io::{BufReader, ErrorKind};
use std::process::ExitCode;
use std::rt::Env;
use std::{env, fmt, fs, io};
use usage::usage;
use words::are_replay;

/// What stands behind the program's name.
fn without_name(mut args: Vec<String>) -> Vec<String>
    ensures { result.items ≡ drop 1 args.items }
{
    if !args.is_empty() {
        let _name = args.remove(0);
    }
    args
}

/// The words of the command line: what the process was started with, without the program's name.
///
/// `Memory` where there's none for them.
fn words_of(alloc: Global, args: Args) -> Result<Vec<String>, Status>
    ensures words { IfOk result (λ words. words.items ≡ drop 1 (into_iter_items args)) }
    ensures memory { IfErr result (λ status. status ≡ Status.Memory) }
{
    match args.collect(alloc) {
        Ok(all) => Ok(without_name(all)),
        Err(_) => Err(Status::Memory),
    }
}

/// The words of the command line. Words that can't be read, as those that aren't UTF-8, are no command.
fn find_words(rt: &(impl Env + AllocGlobal)) -> Result<Vec<String>, Status> {
    match env::args(rt) {
        Ok(args) => words_of(rt.alloc(), args),
        Err(error) if error.kind() == ErrorKind::OutOfMemory => Err(Status::Memory),
        Err(_) => Err(Status::Words),
    }
}

/// What a file has.
fn text_in(rt: &HostRuntime, path: &Text) -> Result<Vec<u8>, Ending>
    ensures { IfErr result (λ ending. (ending ≡ Ending.SettingsFile) ⊎ (ending ≡ Ending.Ran Status.Memory)) }
{
    match fs::read(rt, path.as_str()) {
        Ok(text) => Ok(text),
        Err(error) if error.kind() == ErrorKind::OutOfMemory => Err(Ending::Ran(Status::Memory)),
        Err(_) => Err(Ending::SettingsFile),
    }
}

/// The text of the settings: that of the file which is named, and an empty one where none is.
fn settings_text(rt: &HostRuntime, named: Option<&Text>) -> Result<Vec<u8>, Ending>
    ensures { IfErr result (λ ending. (ending ≡ Ending.SettingsFile) ⊎ (ending ≡ Ending.Ran Status.Memory)) }
{
    match named {
        Some(path) => text_in(rt, path),
        None => Ok(Vec::new(rt.alloc())),
    }
}

/// The bytes of a journal's file that is made by these settings: its two areas.
fn disk_bytes(alloc: Global, settings: &[u8]) -> Result<u64, Status>
    ensures bytes { IfOk result (λ bytes. (fields : Fields) → SaysSettings settings.now fields → bytes ≡ 2 * fields.journal_area) }
    ensures refused { IsErrOf result Status.Settings → SaysNone settings.now }
    ensures statuses { IfErr result (λ status. (status ≡ Status.Settings) ⊎ (status ≡ Status.Memory)) }
{
    match read_settings(alloc, settings) {
        Ok(settings) => Ok(2 * settings.journal_area()),
        Err(SettingsFault::Refused) => Err(Status::Settings),
        Err(SettingsFault::Memory) => Err(Status::Memory),
    }
}

/// Runs a command over standard input and output, and over the journal's file and the cloud's folder that are named. Where the text says no
/// settings, no file is opened.
fn run_over(
    rt: &HostRuntime,
    alloc: Global,
    words: &[String],
    paths: Paths,
    settings: &[u8],
) -> Status
    ensures words { result ≡ Status.Words → Says Replay (map string_bytes words.now) → ⊥ }
    ensures settings { result ≡ Status.Settings → SaysNone settings.now }
{
    let size = match disk_bytes(alloc, settings) {
        Ok(size) => size,
        Err(status) => return status,
    };
    let Ok(input) = BufReader::new(alloc, rt.stdin()) else {
        return Status::Memory;
    };
    let mut site = FileSite::new(rt, paths, size);
    let mut source = StdinSource::new(input);
    let mut sink = StdoutSink::new(rt.stdout());
    run(alloc, words, settings, &mut source, &mut sink, &mut site)
}

/// Runs the command of words that are one, over the files that they name. `Memory` where there's none for the names.
fn run_named(rt: &HostRuntime, alloc: Global, words: &[String]) -> Ending
    ensures words { result ≡ Ending.Ran Status.Words → Says Replay (map string_bytes words.now) → ⊥ }
{
    let Ok(paths) = paths_of(alloc, words) else {
        return Ending::Ran(Status::Memory);
    };
    match settings_text(rt, paths.settings.as_ref()) {
        Ok(settings) => Ending::Ran(run_over(rt, alloc, words, paths, &settings)),
        Err(ending) => ending,
    }
}

/// Runs the command that the words say. Where they are refused, no file is opened.
fn run_words(rt: &HostRuntime, alloc: Global, words: &[String]) -> Ending
    ensures words { (result ≡ Ending.Ran Status.Words) ↔ (Says Replay (map string_bytes words.now) → ⊥) }
{
    if are_replay(words) {
        run_named(rt, alloc, words)
    } else {
        Ending::Ran(Status::Words)
    }
}

/// What is said on standard error of how the program ended, in three lines: its number, its name with what happened, and what to do.
#[derive(Clone, Copy)]
struct Lines(Ending);

impl fmt::Display for Lines {
    fn fmt<W: fmt::Write>(&self, f: &mut fmt::Formatter<W>) -> fmt::Result {
        let number = self.0.number();
        write!(f, "bluesky: status {number}\n{}", self.0)
    }
}

/// Says the usage on standard error. Where there's no memory for it, it is left out.
fn report_usage(rt: &impl Eprint, alloc: Global) -> io::Result<()> {
    match usage(alloc) {
        Ok(text) => eprintln!(rt; "{}", text.as_str()),
        Err(_) => Ok(()),
    }
}

/// Says on standard error how the program ended, unless all went well. Behind words that are refused comes the usage.
fn report(rt: &impl Eprint, alloc: Global, ending: Ending) -> io::Result<()> {
    match ending {
        Ending::Ran(Status::Done) => Ok(()),
        Ending::Ran(Status::Words) => {
            eprintln!(rt; "{}", Lines(ending))?;
            report_usage(rt, alloc)
        }
        _ => eprintln!(rt; "{}", Lines(ending)),
    }
}

/// What the process exits with: the ending's number.
fn exit_code(ending: Ending) -> ExitCode
    ensures { exit_status result ≡ exit_number ending }
{
    ExitCode::from(ending.number() as u8)
}

/// Runs the command that the words say, and tells how it ended.
fn run_and_report(rt: &HostRuntime, words: &[String]) -> ExitCode {
    let ending = run_words(rt, rt.alloc(), words);
    let _ = report(rt, rt.alloc(), ending);
    exit_code(ending)
}

/// Whether the only word is this one.
fn is_only(words: &[String], wanted: &str) -> bool {
    match words {
        [word] => word.as_str() == wanted,
        _ => false,
    }
}

/// Answers `--help` and `--version`, alone, on standard output; runs all other words.
fn answer(rt: &HostRuntime, words: &[String]) -> ExitCode {
    if is_only(words, "--version") {
        let _ = println!(rt; "bluesky {}", VERSION);
        return ExitCode::SUCCESS;
    }
    if is_only(words, "--help") {
        if let Ok(text) = usage(rt.alloc()) {
            let _ = println!(rt; "{}", text.as_str());
        }
        return ExitCode::SUCCESS;
    }
    run_and_report(rt, words)
}

/// The version of the program.
const VERSION: &str = "0.1.0";

fn main(rt: HostRuntime) -> ExitCode {
    match find_words(&rt) {
        Ok(words) => answer(&rt, &words),
        Err(status) => {
            let ending = Ending::Ran(status);
            let _ = report(&rt, rt.alloc(), ending);
            exit_code(ending)
        }
    }
}
