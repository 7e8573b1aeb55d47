//! Rows of recorded frames for a `World` over a site in memory. A row is a line of standard input: its name, words such as
//! `journal_area=262144` that say what the world is opened over, and what happens to it then, as frames. What is printed of a row is each
//! frame that the world answers, and how it ended.
#![tactic(auto)]

mod ending;
mod events;
mod play;
mod setup;
mod show;
mod words;

use play::Outcome;
use setup::Setup;
use std::alloc::Global;
use std::io;

/// What is played: the rows of one world so far.
#[derive(Drop)]
struct Rows {
    setup: Setup,
    /// Their frames.
    recording: Vec<u8>,
    /// How many of the bytes that they write were printed.
    printed: usize,
}

impl Rows {
    /// No row.
    fn new(alloc: Global) -> Rows {
        Rows {
            setup: Setup::new(alloc),
            recording: Vec::new(alloc),
            printed: 0,
        }
    }

    /// Takes what a row says, behind its name. Nothing, where it can't be read.
    fn take(&mut self, alloc: Global, row: &str) -> Option<()> {
        for word in row.split_whitespace() {
            match word.split_once('=') {
                Some((key, value)) => self.setup.take(alloc, key, value)?,
                None => events::put(alloc, &mut self.recording, word)?,
            }
        }
        let _settings = self.setup.settings()?;
        Some(())
    }

    /// The frames, and behind them the one that ends a recording.
    fn whole(&self, alloc: Global) -> Option<Vec<u8>> {
        let mut recording = self.recording.to_vec(alloc).ok()?;
        events::end(&mut recording)?;
        Some(recording)
    }

    /// Plays all, and prints what was not printed before. Where that can't be done, the row says what no disk or cloud can have at first.
    fn play(&mut self, rt: &impl Print, alloc: Global, name: &str) -> io::Result<()> {
        let Some(recording) = self.whole(alloc) else {
            return println!(rt; "{name} no memory");
        };
        match play::played(alloc, &self.setup, recording) {
            Some(played) => self.print(rt, name, &played),
            None => println!(rt; "{name} cannot read this row"),
        }
    }

    /// Prints what was played, but what was printed before.
    fn print(&mut self, rt: &impl Print, name: &str, played: &Outcome) -> io::Result<()> {
        let behind = played.written.get(self.printed..).unwrap_or(&[]);
        show::print_frames(rt, name, self.setup.skip, behind)?;
        self.setup.skip = 0;
        self.printed = played.written.len();
        if let Some(site) = &played.left {
            show::print_site(rt, name, &self.setup, site)?;
        }
        println!(rt; "{name} {}", played.ending)
    }

    /// Does a row.
    fn do_row(&mut self, rt: &impl Print, alloc: Global, name: &str, row: &str) -> io::Result<()> {
        match self.take(alloc, row) {
            Some(()) => self.play(rt, alloc, name),
            None => println!(rt; "{name} cannot read this row"),
        }
    }

    /// Does what a line says. An empty line and one that begins with `#` are passed over.
    fn do_line(&mut self, rt: &impl Print, alloc: Global, line: &str) -> io::Result<()> {
        if line.is_empty() || line.starts_with('#') {
            return Ok(());
        }
        let (name, row) = line.split_once(' ').unwrap_or((line, ""));
        match name.strip_prefix('+') {
            Some(name) => self.do_row(rt, alloc, name, row),
            None => {
                *self = Rows::new(alloc);
                self.do_row(rt, alloc, name, row)
            }
        }
    }
}

fn main(rt: HostRuntime) -> io::Result<()> {
    let mut rows = Rows::new(rt.alloc());
    for line in rt.lines(rt.alloc()) {
        rows.do_line(&rt, rt.alloc(), line?.as_str())?;
    }
    Ok(())
}
