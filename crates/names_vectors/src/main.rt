// Answers each line of hexadecimal digits: the first byte is the question, the second says how many bytes the first text has, and the
// rest is the second text.
#![tactic(auto)]

use names::general;
use names::general::Name;
use refusal::Refusal;
use std::io;
use std::io::{BufWriter, Write};

fn put(to: &mut impl Write, text: &[u8]) -> io::Result<()> {
    to.write_all(text)
}

fn number(to: &mut impl Write, n: usize) -> io::Result<()> {
    write!(to, " {n}")
}

fn refused(to: &mut impl Write, refusal: Refusal) -> io::Result<()> {
    match refusal {
        Refusal::BAD_DER => put(to, b" BadDer"),
        Refusal::CERT_NOT_VALID_FOR_NAME => put(to, b" CertNotValidForName"),
        Refusal::MALFORMED_DNS_IDENTIFIER => put(to, b" MalformedDnsIdentifier"),
        Refusal::MALFORMED_NAME_CONSTRAINT => put(to, b" MalformedNameConstraint"),
        Refusal::INVALID_NETWORK_MASK_CONSTRAINT => put(to, b" InvalidNetworkMaskConstraint"),
        _ => put(to, b" ?"),
    }
}

fn truth(to: &mut impl Write, b: bool) -> io::Result<()> {
    if b { put(to, b" yes") } else { put(to, b" no") }
}

fn answer(to: &mut impl Write, a: Result<bool, Refusal>) -> io::Result<()> {
    match a {
        Ok(b) => truth(to, b),
        Err(e) => refused(to, e),
    }
}

fn verdict(to: &mut impl Write, v: Result<(), Refusal>) -> io::Result<()> {
    match v {
        Ok(()) => put(to, b" good"),
        Err(e) => refused(to, e),
    }
}

fn name(to: &mut impl Write, n: Result<Name, Refusal>) -> io::Result<()> {
    match n {
        Ok(Name { kind, start, end }) => {
            number(to, kind as usize)?;
            number(to, start)?;
            number(to, end)
        }
        Err(e) => refused(to, e),
    }
}

// Question 0: is it a name, in each role.
fn valid(to: &mut impl Write, h: &[u8]) -> io::Result<()> {
    put(to, b"presented")?;
    truth(to, labels::valid_presented(h))?;
    put(to, b"; wanted")?;
    truth(to, labels::valid_wanted(h))?;
    put(to, b"; entry")?;
    truth(to, labels::valid_entry(h))
}

// Question 2: a presented name and an entry.
fn entry(to: &mut impl Write, p: &[u8], q: &[u8]) -> io::Result<()> {
    put(to, b"permitted")?;
    answer(to, dns::match_permitted(p, q))?;
    put(to, b"; excluded")?;
    answer(to, dns::match_excluded(p, q))
}

fn ask(to: &mut impl Write, question: u8, a: &[u8], b: &[u8]) -> io::Result<()> {
    match question {
        0 => valid(to, b)?,
        1 => {
            put(to, b"wanted")?;
            answer(to, dns::match_wanted(a, b))?;
        }
        2 => entry(to, a, b)?,
        3 => {
            put(to, b"subnet")?;
            answer(to, ip::match_subnet(a, b))?;
        }
        4 => {
            put(to, b"dns")?;
            verdict(to, general::good_for_dns(b, 0, b.len(), a))?;
        }
        5 => {
            put(to, b"ip")?;
            verdict(to, general::good_for_ip(b, 0, b.len(), a))?;
        }
        6 => {
            put(to, b"name")?;
            name(to, general::general_name(b, 0, b.len()))?;
        }
        _ => put(to, b"?")?,
    }
    put(to, b"\n")
}

fn show(to: &mut impl Write, s: &[u8]) -> io::Result<()> {
    let [question, size, texts @ ..] = s else {
        return Ok(());
    };
    match texts.split_at_checked(*size as usize) {
        Some((a, b)) => ask(to, *question, a, b),
        None => Ok(()),
    }
}

fn show_all(to: &mut impl Write, text: &[u8], out: &mut [u8]) -> io::Result<()> {
    for line in text.split_inclusive(|b| *b == b'\n') {
        let line = line.strip_suffix(b"\n").unwrap_or(line);
        let count = hexlines::bytes(line, 0, line.len(), out);
        show(to, &out[..count])?;
    }
    Ok(())
}

fn main(rt: HostRuntime) -> io::Result<()> {
    let mut text = hexlines::text_buffer();
    let mut out = hexlines::line_buffer();
    let size = hexlines::read_full(&mut rt.reader(), &mut text)?;
    let mut to = BufWriter::new(rt.alloc(), io::writer(&rt))?;
    show_all(&mut to, &text[..size], &mut out)?;
    to.flush()
}
