// Scripts from standard input and from a file.
use crate::session::Session;
use std::io::{BufRead, BufReader};
use std::{fs, io};

// Carries out each line of standard input as it comes.
pub fn input(rt: &HostRuntime) -> io::Result<()> {
    let mut session = Session::new(rt.alloc());
    let lines = BufReader::new(rt.alloc(), rt.stdin())?.lines(rt.alloc());
    for (i, line) in lines.enumerate() {
        session.line(rt, i + 1, line?.as_str())?;
    }
    Ok(())
}

// Carries out each line of the file with this name. Beside `input`, since its lines are parts of the text and need no memory of their own.
pub fn file(rt: &HostRuntime, name: &str) -> io::Result<()> {
    let text = fs::read_to_string(rt, name)?;
    let mut session = Session::new(rt.alloc());
    for (i, line) in text.lines().enumerate() {
        session.line(rt, i + 1, line)?;
    }
    Ok(())
}
