// `pledge FILE` plays a day of one pledge book from a text; with no argument, from standard input.
#![tactic(auto)]

use script::bad::Unread;
use session::state::Session;
use std::fs::File;
use std::io::{BufRead, BufReader};
use std::process::ExitCode;
use std::{env, fmt, io};

// Why a run stopped early. It is never printed itself, so it has no words of its own.
#[derive(Drop)]
enum Stop {
    // what standard error says already
    Said,
    Io(io::Error),
}

impl From<io::Error> for Stop {
    fn from(error: io::Error) -> Stop {
        Stop::Io(error)
    }
}

// Says on standard error why a run stops.
fn say(rt: &HostRuntime, why: impl fmt::Display + Drop) -> Stop {
    eprintln!(rt; "{why}").map_or_else(Stop::Io, |()| Stop::Said)
}

// Plays one line and prints its outcome, or says what was expected of it.
fn play_line(
    rt: &HostRuntime,
    session: &mut Session,
    number: usize,
    line: &[u8],
) -> Result<(), Stop> {
    let Ok(text) = std::str::from_utf8(line) else {
        return Err(say(rt, format_args!("line {number}: expected text in UTF-8")));
    };
    match session.play(rt.alloc(), text) {
        Ok(Some(outcome)) => println!(rt; "{outcome}")?,
        Ok(None) => {}
        Err(Unread::Bad(bad)) => return Err(say(rt, format_args!("line {number}: {bad}"))),
        Err(Unread::Memory(error)) => return Err(Stop::Io(io::Error::from(error))),
    }
    Ok(())
}

// Plays the lines of a text in order, up to the first bad one.
fn play_all<R: BufRead + Drop>(rt: &HostRuntime, text: R) -> Result<(), Stop> {
    let mut session = Session::new();
    for (before, line) in text.split(rt.alloc(), b'\n').enumerate() {
        let number = before.saturating_add(1);
        play_line(rt, &mut session, number, line?.as_slice())?;
    }
    Ok(())
}

fn play_file(rt: &HostRuntime, path: &str) -> Result<(), Stop> {
    match File::open(rt, path) {
        Ok(file) => play_all(rt, BufReader::new(rt.alloc(), file)?),
        Err(e) => Err(say(rt, format_args!("pledge: {path}: {e}"))),
    }
}

fn run(rt: &HostRuntime) -> Result<(), Stop> {
    let mut args = env::args(rt)?;
    let _program = args.next();
    match (args.next(), args.next()) {
        (None, _) => play_all(rt, BufReader::new(rt.alloc(), rt.stdin())?),
        (Some(path), None) => play_file(rt, path.as_str()),
        _ => Err(say(rt, "usage: pledge [FILE]")),
    }
}

// An error that `main` returned would be printed once more, so it returns the status alone.
fn main(rt: HostRuntime) -> ExitCode {
    match run(&rt) {
        Ok(()) => ExitCode::SUCCESS,
        Err(Stop::Said) => ExitCode::FAILURE,
        Err(Stop::Io(e)) => {
            let _ = eprintln!(rt; "pledge: {e}");
            ExitCode::FAILURE
        }
    }
}
