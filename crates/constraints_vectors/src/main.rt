// Checks the name constraints of a path for each line of hexadecimal digits, and writes the refusal, or ok, and how many comparisons are
// left.
//
// A line is: three bytes, the comparisons allowed; a byte, 1 if the anchor has constraints; a byte, how many intermediates there are, at
// most six; then fields, each after two bytes that say how long it is: the content of the anchor's constraints, the end entity, and the
// intermediates, from the one that issued the end entity up.
#![tactic(auto)]

use lent::Lent;
use refusal::Refusal;
use std::io;
use std::io::{BufWriter, Write};

fn said(answer: Result<(), Refusal>) -> &'static str {
    match answer {
        Ok(()) => "ok",
        Err(Refusal::BAD_DER) => "BadDer",
        Err(Refusal::NAME_CONSTRAINT_VIOLATION) => "NameConstraintViolation",
        Err(Refusal::MALFORMED_DNS_IDENTIFIER) => "MalformedDnsIdentifier",
        Err(Refusal::MALFORMED_NAME_CONSTRAINT) => "MalformedNameConstraint",
        Err(Refusal::INVALID_NETWORK_MASK_CONSTRAINT) => "InvalidNetworkMaskConstraint",
        Err(Refusal::TRAILING_GENERAL_NAME) => "TrailingData(GeneralName)",
        Err(Refusal::MAXIMUM_NAME_CONSTRAINT_COMPARISONS_EXCEEDED) =>
            "MaximumNameConstraintComparisonsExceeded",
        _ => "another refusal",
    }
}

// The field that s begins with, and what comes after it. A field that is not whole has what there is of it, and one that is not there is
// empty.
fn take_field(s: &[u8]) -> (&[u8], &[u8]) {
    let [high, low, rest @ ..] = s else {
        return (&[], &[]);
    };
    let size = usize::from(*high) * 256 + usize::from(*low);
    rest.split_at(size.min(rest.len()))
}

fn show(to: &mut impl Write, s: &[u8]) -> io::Result<()> {
    let [a, b, c, bound, depth, fields @ ..] = s else {
        return Ok(());
    };
    let mut left = u64::from(*a) * 65536 + u64::from(*b) * 256 + u64::from(*c);
    let (anchor, fields) = take_field(fields);
    let (end, mut rest) = take_field(fields);
    let mut issuers: [&[u8]; 6] = [&[]; 6];
    for i in 0..issuers.len() {
        (issuers[i], rest) = take_field(rest);
    }
    let lent = Lent {
        table: &[],
        issuers: &issuers,
        end,
        anchors: 0,
    };
    let path = [6, 0, 1, 2, 3, 4, 5];
    let answer = constraints::path_constraints(
        &lent,
        path,
        usize::from(*depth),
        anchor,
        *bound == 1,
        &mut left,
    );
    writeln!(to, "{} {left}", said(answer))
}

fn show_all(to: &mut impl Write, text: &[u8], out: &mut [u8]) -> io::Result<()> {
    for line in text.split_inclusive(|b| *b == b'\n') {
        let line = line.strip_suffix(b"\n").unwrap_or(line);
        let count = hexlines::bytes(line, 0, line.len(), out);
        show(to, &out[..count])?;
    }
    Ok(())
}

fn main(rt: HostRuntime) -> io::Result<()> {
    let mut text = hexlines::text_buffer();
    let mut out = hexlines::line_buffer();
    let size = hexlines::read_full(&mut rt.reader(), &mut text)?;
    let mut to = BufWriter::new(rt.alloc(), io::writer(&rt))?;
    show_all(&mut to, &text[..size], &mut out)?;
    to.flush()
}
