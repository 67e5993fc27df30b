// Reads each line of hexadecimal digits in every way that crate `der` offers, from its first byte to its last, and prints what it finds.
#![tactic(auto)]

use der::{Span, Value};
use refusal::Refusal;
use std::io;
use std::io::{BufWriter, Write};

fn put(to: &mut impl Write, text: &[u8]) -> io::Result<()> {
    to.write_all(text)
}

fn number(to: &mut impl Write, n: usize) -> io::Result<()> {
    write!(to, " {n}")
}

fn refused(to: &mut impl Write, refusal: Refusal) -> io::Result<()> {
    match refusal {
        Refusal::BAD_DER => put(to, b" BadDer"),
        Refusal::TRAILING_BOOL => put(to, b" TrailingData(Bool)"),
        Refusal::TRAILING_BIT_STRING => put(to, b" TrailingData(BitString)"),
        _ => put(to, b" ?"),
    }
}

fn got(to: &mut impl Write, answer: Result<Span, Refusal>) -> io::Result<()> {
    match answer {
        Ok(p) => {
            number(to, p.start)?;
            number(to, p.end)
        }
        Err(e) => refused(to, e),
    }
}

fn value(to: &mut impl Write, s: &[u8]) -> io::Result<()> {
    match der::read_value(s, 0, s.len()) {
        Some(Value { tag, start, end }) => {
            number(to, tag as usize)?;
            number(to, start)?;
            number(to, end)
        }
        None => put(to, b" BadDer"),
    }
}

fn boolean(to: &mut impl Write, s: &[u8]) -> io::Result<()> {
    match values::read_bool(s, 0, s.len()) {
        Ok((value, next)) => {
            if value {
                put(to, b" true")?;
            } else {
                put(to, b" false")?;
            }
            number(to, next)
        }
        Err(e) => refused(to, e),
    }
}

fn one_byte(to: &mut impl Write, s: &[u8]) -> io::Result<()> {
    match values::read_small(s, 0, s.len()) {
        Ok((value, next)) => {
            number(to, value as usize)?;
            number(to, next)
        }
        Err(e) => refused(to, e),
    }
}

// The flags of a content, by the numbers of those among the first sixteen that are set.
fn flags(to: &mut impl Write, s: &[u8]) -> io::Result<()> {
    match bits::flags_in(s, 0, s.len()) {
        Ok(p) => {
            for k in 0..16 {
                if bits::flag_at(s, p.start, p.end, k) {
                    number(to, k)?;
                }
            }
            Ok(())
        }
        Err(e) => refused(to, e),
    }
}

fn row(to: &mut impl Write, s: &[u8]) -> io::Result<()> {
    match parts::count_values(s, 0, s.len()) {
        Some(n) => number(to, n),
        None => put(to, b" BadDer"),
    }
}

fn show(to: &mut impl Write, s: &[u8]) -> io::Result<()> {
    let all = s.len();
    put(to, b"value")?;
    value(to, s)?;
    put(to, b"; boolean")?;
    boolean(to, s)?;
    put(to, b"; byte")?;
    one_byte(to, s)?;
    put(to, b"; digits")?;
    got(to, values::nonnegative_at(s, 0, all))?;
    put(to, b"; bits")?;
    got(to, bits::bits_at(s, 0, all))?;
    put(to, b"; flags")?;
    flags(to, s)?;
    put(to, b"; row")?;
    row(to, s)?;
    put(to, b"\n")
}

fn show_all(to: &mut impl Write, text: &[u8], out: &mut [u8]) -> io::Result<()> {
    for line in text.split_inclusive(|b| *b == b'\n') {
        let line = line.strip_suffix(b"\n").unwrap_or(line);
        let count = hexlines::padded(line, 0, line.len(), out);
        show(to, &out[..count])?;
    }
    Ok(())
}

fn main(rt: HostRuntime) -> io::Result<()> {
    let mut text = hexlines::text_buffer();
    let mut out = hexlines::line_buffer();
    let size = hexlines::read_full(&mut rt.reader(), &mut text)?;
    let mut to = BufWriter::new(rt.alloc(), io::writer(&rt))?;
    show_all(&mut to, &text[..size], &mut out)?;
    to.flush()
}
