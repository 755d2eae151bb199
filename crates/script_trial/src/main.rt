// Lines that are no lines of the format: what is said of each, and that nothing of it happens.
#![tactic(auto)]

use script::bad::{BadLine, Unread};
use session::state::Session;
use std::io;

// Plays a line and prints its outcome; or gives back what is bad about it.
fn try_line<'a>(
    rt: &HostRuntime,
    session: &mut Session,
    line: &'a str,
) -> io::Result<Option<BadLine<'a>>> {
    match session.play(rt.alloc(), line) {
        Ok(Some(outcome)) => println!(rt; "  {outcome}")?,
        Ok(None) => {}
        Err(Unread::Bad(bad)) => return Ok(Some(bad)),
        Err(Unread::Memory(error)) => return Err(io::Error::from(error)),
    }
    Ok(None)
}

// Plays a text up to its first bad line, and prints what is said of that, or of the last line.
fn try_text(rt: &HostRuntime, text: &str) -> io::Result<()> {
    let mut session = Session::new();
    for (before, line) in text.lines().enumerate() {
        if let Some(bad) = try_line(rt, &mut session, line)? {
            let number = before.saturating_add(1);
            return println!(rt; "  line {number}: {bad}");
        }
    }
    Ok(())
}

// A bad line leaves the session as it was: the place that it names is still free, the card still open.
fn try_again(rt: &HostRuntime) -> io::Result<()> {
    let mut session = Session::new();
    for line in [
        "book 1",
        "book 2",
        "page 0 01 00 00 00 GG",
        "add 0 issuer 1 class 0 rating 1 months 0 value 1 2",
        "page 0 01 00 00 00 00",
        "add 0 issuer 1 class 0 rating 1 months 0 value 1",
        "page 0 01 00 00 10 27",
        "add 1 issuer 1 class 0 rating 1 months 0 value 1",
    ] {
        if let Some(bad) = try_line(rt, &mut session, line)? {
            println!(rt; "  bad: {bad}")?;
        }
    }
    Ok(())
}

fn main(rt: HostRuntime) -> io::Result<()> {
    for text in [
        "page 0 01 00 00 00 00",
        "add 0 issuer 1 class 0 rating 1 months 0 value 1",
        "book",
        "book x",
        "book 65536",
        "book 18446744073709551616",
        "book 1 2",
        "book 1\nbook 1",
        "BOOK 1",
        "book 1\nlot",
        "book 1\npage",
        "book 1\npage -1 00",
        "book 1\npage 0 0x01",
        "book 1\npage 0 100",
        "book 1\npage 0 +1",
        "book 1\npage 0 01 00 00 00 0g # past f",
        "book 1\nadd",
        "book 1\nadd 0",
        "book 1\nadd 0 class 1",
        "book 1\nadd 0 issuer",
        "book 1\nadd 0 issuer 1# class 0 rating 1 months 0 value 1",
        "book 1\nadd 0 issuer one class 0 rating 1 months 0 value 1",
        "book 1\nadd 0 issuer 1 class 0 rating 1 months 0 value 18446744073709551616",
        "book 1\nadd 0 issuer 1 class 0 rating 1 months 0 value 1 2",
        "book 1\nadd 0 issuer 1 class 0 rating 1 months 0 value 1,000",
        "book 1\nadd 0 issuer 1 class 0 rating 1 months 0 value 1\npage 0 01 00 00 00 00",
        "# nothing\n\n \t\r\n   # still nothing",
        "  book 007 # numbers may begin with 0\n\tpage\t1\t1 0 0 a A\t#\nadd 00 issuer 1 class 1 rating 1 months 0 value 00018446744073709551615",
    ] {
        println!(rt; "{text:?}")?;
        try_text(&rt, text)?;
    }
    println!(rt; "after bad lines")?;
    try_again(&rt)
}
