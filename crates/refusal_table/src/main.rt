// Prints the table of refusals. The input has the Rust's names, a line each, in the order of the numbers; rank and end are this library's answers.
#![tactic(auto)]

use refusal::Refusal;
use std::io;
use std::io::{BufWriter, Write};

fn put(to: &mut impl Write, text: &[u8]) -> io::Result<()> {
    to.write_all(text)
}

fn put_number(to: &mut impl Write, n: u16) -> io::Result<()> {
    write!(to, "{n}")
}

fn row(to: &mut impl Write, refusal: Refusal, name: &[u8]) -> io::Result<()> {
    put(to, b"| ")?;
    put_number(to, refusal.number())?;
    put(to, b" | ")?;
    put(to, name)?;
    put(to, b" | ")?;
    put_number(to, refusal.rank())?;
    if refusal.is_fatal() {
        put(to, b" | yes |\n")
    } else {
        put(to, b" | no |\n")
    }
}

fn rows(to: &mut impl Write, names: &[u8]) -> io::Result<()> {
    for (number, line) in (1..=u16::MAX).zip(names.split_inclusive(|b| *b == b'\n')) {
        if let Some(name) = line.strip_suffix(b"\n") {
            row(to, Refusal::from(number), name)?;
        }
    }
    Ok(())
}

fn main(rt: HostRuntime) -> io::Result<()> {
    let mut names = [0; 4096];
    let count = hexlines::read_full(&mut rt.reader(), &mut names)?;
    let mut to = BufWriter::new(rt.alloc(), io::writer(&rt))?;
    put(
        &mut to,
        b"| number | refusal | rank | ends the search |\n|---:|---|---:|---|\n",
    )?;
    rows(&mut to, &names[..count])?;
    to.flush()
}
