// The outside of a certificate, and how what is signed begins: RFC 5280, 4.1.1 and 4.1.2.1 to 4.1.2.3.
#![tactic(auto)]

ghost use Rattle.std.specs.Prelude.{◌≡◌};
ghost use Rattle.envelope.specs.Model.{parts_in, opened, version_at, begun};

use der::Span;
use refusal::Refusal;

// What is signed, with its header and without, and the two values beside it.
#[derive(Clone, Copy)]
pub struct Envelope {
    pub signed: Span,
    pub content: Span,
    pub algorithm: Span,
    pub signature: Span,
}

#[derive(Clone, Copy)]
pub struct Beginning {
    pub serial: Span,
    pub algorithm: Span,
}

// The three values of a certificate's content: RFC 5280, 4.1.1.
#[inline(always)]
fn parts_in(s: &[u8], from: usize, to: usize) -> Result<Envelope, Refusal>
    ensures { result ≡ parts_in s.now from to }
{
    let content = der::expect(s, from, to, 0x30, Refusal::BAD_DER)?;
    let signed = Span {
        start: from,
        end: content.end,
    };
    let algorithm = der::expect(s, content.end, to, 0x30, Refusal::BAD_DER)?;
    let signature = bits::bits_at(s, algorithm.end, to)?;
    if signature.end != to {
        return Err(Refusal::TRAILING_SIGNED_DATA);
    }
    Ok(Envelope {
        signed,
        content,
        algorithm,
        signature,
    })
}

// A certificate's content, with nothing after it.
#[inline(always)]
pub fn envelope_of(s: &[u8]) -> Result<Envelope, Refusal>
    ensures { result ≡ opened s.now }
{
    let whole = der::expect(s, 0, s.len(), 0x30, Refusal::TRAILING_SIGNED_DATA)?;
    let envelope = parts_in(s, whole.start, whole.end)?;
    if whole.end != s.len() {
        return Err(Refusal::TRAILING_CERTIFICATE);
    }
    Ok(envelope)
}

// The version, which must be v3, written 2: RFC 5280, 4.1.2.1.
#[inline(always)]
fn version_at(s: &[u8], from: usize, to: usize) -> Result<Span, Refusal>
    ensures { result ≡ version_at s.now from to }
{
    let version = der::expect(s, from, to, 0xa0, Refusal::UNSUPPORTED_CERT_VERSION)?;
    let (value, next) = values::read_small(s, version.start, version.end)?;
    if value != 2 || next != version.end {
        return Err(Refusal::UNSUPPORTED_CERT_VERSION);
    }
    Ok(version)
}

// Version, serial number and algorithm, which must be the one beside the signed bytes: RFC 5280, 4.1.1.2.
#[inline(always)]
pub fn begin(s: &[u8], from: usize, to: usize, outer: Span) -> Result<Beginning, Refusal>
    ensures { result ≡ begun s.now from to outer }
{
    let version = version_at(s, from, to)?;
    let serial = der::expect(s, version.end, to, 0x02, Refusal::BAD_DER)?;
    let algorithm = der::expect(s, serial.end, to, 0x30, Refusal::BAD_DER)?;
    if !parts::same(s, algorithm.start, algorithm.end, s, outer.start, outer.end) {
        return Err(Refusal::SIGNATURE_ALGORITHM_MISMATCH);
    }
    Ok(Beginning { serial, algorithm })
}
