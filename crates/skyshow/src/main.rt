//! `skyshow --recording PATH < answers`: what `bluesky replay` wrote, one line for each frame.
#![tactic(auto)]

ghost use Rattle.std.specs.Prelude.{◌≡◌, ◌≢◌, ◌↔◌, ℕ, List, [], ◌∷◌, codes, drop, map, string_bytes, IfSome, IsNone, IsTrue};
ghost use Rattle.std.specs.Process.{exit_status};
ghost use Rattle.sky_show.specs.Ending.{number_of};

use sky_real::{StdinSource, StdoutSink};
use sky_show::{Ending, show};
use std::alloc::Global;
use std::fs::File;
use std::io::{BufReader, ErrorKind};
use std::process::ExitCode;
use std::rt::Env;
use std::{env, io};

/// What stands behind the program's name.
fn without_name(mut args: Vec<String>) -> Vec<String>
    ensures { result.items ≡ drop 1 args.items }
{
    if !args.is_empty() {
        let _name = args.remove(0);
    }
    args
}

/// The words of the command line, without the program's name.
fn read_words(rt: &(impl Env + AllocGlobal)) -> Result<Vec<String>, Ending> {
    match env::args(rt) {
        Ok(args) => match args.collect(rt.alloc()) {
            Ok(words) => Ok(without_name(words)),
            Err(_) => Err(Ending::Memory),
        },
        Err(error) if error.kind() == ErrorKind::OutOfMemory => Err(Ending::Memory),
        Err(_) => Err(Ending::Words),
    }
}

/// Whether a word is the option behind which the path of the recording stands.
fn is_option(word: &str) -> bool
    ensures { IsTrue result ↔ (word.now ≡ codes "--recording") }
{
    word == "--recording"
}

/// The path of the recording that the words name, where they are `--recording PATH`.
fn recording_in(words: &[String]) -> Option<&str>
    ensures some { IfSome result (λ path. map string_bytes words.now ≡ codes "--recording" ∷ path.now ∷ []) }
    ensures none { IsNone result → (path : List ℕ) → map string_bytes words.now ≢ codes "--recording" ∷ path ∷ [] }
{
    match words {
        [option, path] if is_option(option.as_str()) => Some(path.as_str()),
        _ => None,
    }
}

/// Opens the recording.
fn open_recording(rt: &HostRuntime, words: &[String]) -> Result<File, Ending> {
    let Some(path) = recording_in(words) else {
        return Err(Ending::Words);
    };
    match File::open(rt, path) {
        Ok(file) => Ok(file),
        Err(error) if error.kind() == ErrorKind::OutOfMemory => Err(Ending::Memory),
        Err(_) => Err(Ending::NoRecording),
    }
}

/// Shows the answers on standard input, by the recording in this file.
fn show_answers(rt: &HostRuntime, alloc: Global, file: File) -> Ending {
    let (Ok(recording), Ok(answers)) = (
        BufReader::new(alloc, file),
        BufReader::new(alloc, rt.stdin()),
    ) else {
        return Ending::Memory;
    };
    show(
        alloc,
        &mut StdinSource::new(recording),
        &mut StdinSource::new(answers),
        &mut StdoutSink::new(rt.stdout()),
    )
}

/// Does what the words of the command line say.
fn run(rt: &HostRuntime) -> Result<Ending, Ending> {
    let words = read_words(rt)?;
    let file = open_recording(rt, &words)?;
    Ok(show_answers(rt, rt.alloc(), file))
}

/// Says on standard error how it ended, unless all was shown.
fn report(rt: &impl Eprint, ending: Ending) -> io::Result<()> {
    if ending == Ending::Shown {
        Ok(())
    } else {
        eprintln!(rt; "skyshow: {ending}")
    }
}

/// What the process exits with: the ending's number.
fn exit_code(ending: Ending) -> ExitCode
    ensures { exit_status result ≡ number_of ending }
{
    ExitCode::from(ending.number())
}

fn main(rt: HostRuntime) -> ExitCode {
    let ending = match run(&rt) {
        Ok(ending) | Err(ending) => ending,
    };
    let _ = report(&rt, ending);
    exit_code(ending)
}
