// Reads lines of hexadecimal digits, each a time in DER, and writes a line for each: the moment and the place after it, or the
// refusal.
#![tactic(auto)]

use refusal::Refusal;
use std::io;
use std::io::{BufWriter, Write};

fn put(to: &mut impl Write, text: &[u8]) -> io::Result<()> {
    to.write_all(text)
}

fn show_refusal(to: &mut impl Write, e: Refusal) -> io::Result<()> {
    match e {
        Refusal::BAD_DER_TIME => put(to, b"BadDerTime"),
        Refusal::TRAILING_TIME => put(to, b"TrailingData(Time)"),
        _ => put(to, b"another refusal"),
    }
}

fn show(to: &mut impl Write, s: &[u8]) -> io::Result<()> {
    match moment::time_at(s, 0, s.len()) {
        Ok((seconds, next)) => write!(to, "ok {seconds} {next}")?,
        Err(e) => show_refusal(to, e)?,
    }
    put(to, b"\n")
}

fn show_all(to: &mut impl Write, text: &[u8], out: &mut [u8]) -> io::Result<()> {
    for line in text.split_inclusive(|b| *b == b'\n') {
        let line = line.strip_suffix(b"\n").unwrap_or(line);
        let count = hexlines::bytes(line, 0, line.len(), out);
        show(to, &out[..count])?;
    }
    Ok(())
}

fn main(rt: HostRuntime) -> io::Result<()> {
    let mut text = hexlines::text_buffer();
    let mut out = hexlines::line_buffer();
    let size = hexlines::read_full(&mut rt.reader(), &mut text)?;
    let mut to = BufWriter::new(rt.alloc(), io::writer(&rt))?;
    show_all(&mut to, &text[..size], &mut out)?;
    to.flush()
}
