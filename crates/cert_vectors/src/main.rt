// Reads a certificate from each line, and prints where its fields lie or why it is refused. A line is a letter, a space and
// hexadecimal digits, which `+` and a number may end: so many zero bytes follow.
//   r  one certificate: signed bytes, algorithm, signature, serial number, inner algorithm, issuer, validity, subject, key, then the
//      six known extensions; after a stroke the anchor's subject, key and name constraints
//   f  the certificate with each single bit flipped, p  each prefix of it: a letter for each refusal, for a certificate that is
//      accepted a digit that is made of its places; first strict, then as an anchor
//   k  a key: its algorithm and its bits
#![tactic(auto)]

use cert::key;
use der::Span;
use extensions::{Known, Slot};
use refusal::Refusal;
use std::io;
use std::io::{BufWriter, Write};

fn put(to: &mut impl Write, text: &[u8]) -> io::Result<()> {
    to.write_all(text)
}

fn refused(to: &mut impl Write, refusal: Refusal) -> io::Result<()> {
    match refusal {
        Refusal::BAD_DER => put(to, b" BadDer"),
        Refusal::SIGNATURE_ALGORITHM_MISMATCH => put(to, b" SignatureAlgorithmMismatch"),
        Refusal::UNSUPPORTED_CERT_VERSION => put(to, b" UnsupportedCertVersion"),
        Refusal::UNSUPPORTED_CRITICAL_EXTENSION => put(to, b" UnsupportedCriticalExtension"),
        Refusal::EXTENSION_VALUE_INVALID => put(to, b" ExtensionValueInvalid"),
        Refusal::TRAILING_SIGNED_DATA => put(to, b" TrailingData(SignedData)"),
        Refusal::TRAILING_CERTIFICATE => put(to, b" TrailingData(Certificate)"),
        Refusal::TRAILING_CERTIFICATE_TBS_CERTIFICATE => {
            put(to, b" TrailingData(CertificateTbsCertificate)")
        }
        Refusal::TRAILING_CERTIFICATE_EXTENSIONS => put(
            to,
            b" TrailingData(CertificateExtensions)",
        ),
        Refusal::TRAILING_EXTENSION => put(to, b" TrailingData(Extension)"),
        Refusal::TRAILING_BIT_STRING => put(to, b" TrailingData(BitString)"),
        Refusal::TRAILING_BOOL => put(to, b" TrailingData(Bool)"),
        Refusal::TRAILING_SUBJECT_PUBLIC_KEY_INFO => put(
            to,
            b" TrailingData(SubjectPublicKeyInfo)",
        ),
        _ => put(to, b" ?"),
    }
}

// The letter of a refusal.
fn letter(to: &mut impl Write, refusal: Refusal) -> io::Result<()> {
    match refusal {
        Refusal::BAD_DER => put(to, b"D"),
        Refusal::SIGNATURE_ALGORITHM_MISMATCH => put(to, b"A"),
        Refusal::UNSUPPORTED_CERT_VERSION => put(to, b"V"),
        Refusal::UNSUPPORTED_CRITICAL_EXTENSION => put(to, b"U"),
        Refusal::EXTENSION_VALUE_INVALID => put(to, b"I"),
        Refusal::TRAILING_SIGNED_DATA => put(to, b"S"),
        Refusal::TRAILING_CERTIFICATE => put(to, b"C"),
        Refusal::TRAILING_CERTIFICATE_TBS_CERTIFICATE => put(to, b"T"),
        Refusal::TRAILING_CERTIFICATE_EXTENSIONS => put(to, b"X"),
        Refusal::TRAILING_EXTENSION => put(to, b"E"),
        Refusal::TRAILING_BIT_STRING => put(to, b"B"),
        Refusal::TRAILING_BOOL => put(to, b"L"),
        _ => put(to, b"?"),
    }
}

fn span(to: &mut impl Write, p: Span) -> io::Result<()> {
    write!(to, " {}-{}", p.start, p.end)
}

fn slot(to: &mut impl Write, x: Slot) -> io::Result<()> {
    if x.known {
        write!(to, " {}-{}", x.start, x.end)
    } else {
        put(to, b" -")
    }
}

fn slots(to: &mut impl Write, k: Known) -> io::Result<()> {
    slot(to, k.key_usage)?;
    slot(to, k.alternative_name)?;
    slot(to, k.basic_constraints)?;
    slot(to, k.name_constraints)?;
    slot(to, k.distribution_points)?;
    slot(to, k.key_purposes)
}

fn show(to: &mut impl Write, s: &[u8]) -> io::Result<()> {
    match cert::read(s, true) {
        Ok(c) => {
            put(to, b"ok")?;
            span(to, c.signed)?;
            span(to, c.algorithm)?;
            span(to, c.signature)?;
            span(to, c.serial)?;
            span(to, c.inner_algorithm)?;
            span(to, c.issuer)?;
            span(to, c.validity)?;
            span(to, c.subject)?;
            span(to, c.key)?;
            slots(to, c.known)?;
        }
        Err(e) => refused(to, e)?,
    }
    put(to, b" |")?;
    match cert::anchor(s) {
        Ok(anchor) => {
            put(to, b" ok")?;
            span(to, anchor.subject)?;
            span(to, anchor.key)?;
            slot(to, anchor.constraints)?;
        }
        Err(e) => refused(to, e)?,
    }
    put(to, b"\n")
}

fn show_key(to: &mut impl Write, s: &[u8]) -> io::Result<()> {
    match key::parts(s, 0, s.len()) {
        Ok(key) => {
            put(to, b"ok")?;
            span(to, key.algorithm)?;
            span(to, key.bits)?;
        }
        Err(e) => refused(to, e)?,
    }
    put(to, b"\n")
}

// One digit more into a digit.
fn mix(sum: u64, p: Span) -> u64 {
    (sum % 10 * 3 + (p.start as u64) % 10 + (p.end as u64) % 10 * 7) % 10
}

fn mix_slot(sum: u64, x: Slot) -> u64 {
    mix(
        sum,
        Span {
            start: x.start,
            end: x.end,
        },
    )
}

fn digit_of_slots(sum: u64, k: Known) -> u64 {
    let a = mix_slot(sum, k.key_usage);
    let b = mix_slot(a, k.alternative_name);
    let c = mix_slot(b, k.basic_constraints);
    let d = mix_slot(c, k.name_constraints);
    let e = mix_slot(d, k.distribution_points);
    mix_slot(e, k.key_purposes)
}

fn brief(to: &mut impl Write, s: &[u8]) -> io::Result<()> {
    match cert::read(s, true) {
        Ok(x) => {
            let a = mix(0, x.signed);
            let b = mix(a, x.algorithm);
            let c = mix(b, x.signature);
            let d = mix(c, x.serial);
            let e = mix(d, x.inner_algorithm);
            let f = mix(e, x.issuer);
            let g = mix(f, x.validity);
            let h = mix(g, x.subject);
            let i = mix(h, x.key);
            write!(to, "{}", digit_of_slots(i, x.known))
        }
        Err(e) => letter(to, e),
    }
}

fn brief_anchor(to: &mut impl Write, s: &[u8]) -> io::Result<()> {
    match cert::anchor(s) {
        Ok(anchor) => {
            let a = mix(0, anchor.subject);
            let b = mix(a, anchor.key);
            write!(to, "{}", mix_slot(b, anchor.constraints))
        }
        Err(e) => letter(to, e),
    }
}

// A character for the strict reader, and one for an anchor's.
fn both(to: &mut impl Write, s: &[u8]) -> io::Result<()> {
    brief(to, s)?;
    brief_anchor(to, s)
}

// Each bit of the byte at a place, flipped and flipped back.
fn flip_byte(to: &mut impl Write, s: &mut [u8], at: usize) -> io::Result<()> {
    if s.len() <= at {
        return Ok(());
    }
    let byte = s[at];
    for bit in 0..8u32 {
        s[at] = byte ^ (128 >> bit);
        both(to, s)?;
    }
    s[at] = byte;
    Ok(())
}

fn flips(to: &mut impl Write, s: &mut [u8]) -> io::Result<()> {
    for at in 0..s.len() {
        flip_byte(to, s, at)?;
    }
    put(to, b"\n")
}

fn prefix(to: &mut impl Write, s: &[u8], n: usize) -> io::Result<()> {
    if s.len() < n {
        return Ok(());
    }
    both(to, &s[..n])
}

fn prefixes(to: &mut impl Write, s: &[u8]) -> io::Result<()> {
    for n in 0..s.len() {
        prefix(to, s, n)?;
    }
    put(to, b"\n")
}

fn show_line(to: &mut impl Write, kind: u8, s: &mut [u8]) -> io::Result<()> {
    match kind {
        b'r' => show(to, s),
        b'f' => flips(to, s),
        b'p' => prefixes(to, s),
        b'k' => show_key(to, s),
        _ => put(to, b"?\n"),
    }
}

fn show_all(to: &mut impl Write, text: &[u8], out: &mut [u8]) -> io::Result<()> {
    let mut at = 0;
    while at < text.len() {
        if text.len() - at < 2 {
            return Ok(());
        }
        let end = hexlines::line_end(text, at);
        let kind = text[at];
        let count = hexlines::padded(text, at + 2, end, out);
        show_line(to, kind, &mut out[..count])?;
        at = end + 1;
    }
    Ok(())
}

fn main(rt: HostRuntime) -> io::Result<()> {
    let mut text = hexlines::text_buffer();
    let mut out = hexlines::line_buffer();
    let size = hexlines::read_full(&mut rt.reader(), &mut text)?;
    let mut to = BufWriter::new(rt.alloc(), io::writer(&rt))?;
    show_all(&mut to, &text[..size], &mut out)?;
    to.flush()
}
