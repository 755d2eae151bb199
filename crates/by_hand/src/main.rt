// A run by hand: what a program that holds its own slip looks like. The slip has to be spent on every
// way out; tests/slips shows that a program that forgets it, or spends it twice, is turned away.
#![tactic(auto)]

use book::book::Book;
use cause::Cause;
use std::io;

// Opens a run and gives it up again; its number.
fn one_run(book: &mut Book) -> Result<u32, Cause> {
    let slip = book.begin()?;
    let run = slip.run();
    match book.abandon(slip) {
        Ok(()) => Ok(run),
        Err((_cause, _slip)) => unreachable!(),
    }
}

fn main(rt: HostRuntime) -> io::Result<()> {
    let mut book = Book::new(7);
    for _ in 0..3 {
        match one_run(&mut book) {
            Ok(run) => println!(rt; "run {run}: abandoned")?,
            Err(cause) => {
                let number = cause.number();
                println!(rt; "begin: refused {number}")?;
            }
        }
    }
    Ok(())
}
