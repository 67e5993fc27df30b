// One certificate: where each of its fields lies in its bytes, or why it is refused.
#![tactic(auto)]

ghost use Rattle.std.specs.Prelude.{◌≡◌};
ghost use Rattle.cert.specs.Model.{fields_at, whole_of, read_certificate, read_anchor};

use der::Span;
use envelope::{Beginning, Envelope};
use extensions::{Known, Slot};
use refusal::Refusal;

pub mod key;

// The contents of a certificate's fields, and the signed bytes with their header.
#[derive(Clone, Copy)]
pub struct Certificate {
    pub signed: Span,
    pub algorithm: Span,
    pub signature: Span,
    pub serial: Span,
    pub inner_algorithm: Span,
    pub issuer: Span,
    pub validity: Span,
    pub subject: Span,
    pub key: Span,
    pub known: Known,
}

// What is read of a certificate: the places of its fields, or why it is refused.
pub type Reading = Result<Certificate, Refusal>;

// What is taken of a certificate that is trusted.
#[derive(Clone, Copy)]
pub struct TrustAnchor {
    pub subject: Span,
    pub key: Span,
    pub constraints: Slot,
}

#[derive(Clone, Copy)]
struct Fields {
    issuer: Span,
    validity: Span,
    subject: Span,
    key: Span,
}

// Issuer, validity, subject and subject's key, none of them opened: RFC 5280, 4.1.2.4 to 4.1.2.7.
#[inline(always)]
fn fields_at(s: &[u8], from: usize, to: usize) -> Result<Fields, Refusal>
    ensures { result ≡ fields_at s.now from to }
{
    let issuer = der::expect(s, from, to, 0x30, Refusal::BAD_DER)?;
    let validity = der::expect(s, issuer.end, to, 0x30, Refusal::BAD_DER)?;
    let subject = der::expect(s, validity.end, to, 0x30, Refusal::BAD_DER)?;
    let key = der::expect(s, subject.end, to, 0x30, Refusal::BAD_DER)?;
    Ok(Fields {
        issuer,
        validity,
        subject,
        key,
    })
}

#[inline(always)]
fn whole(envelope: Envelope, beginning: Beginning, fields: Fields, known: Known) -> Certificate
    ensures { result ≡ whole_of envelope beginning fields known }
{
    Certificate {
        signed: envelope.signed,
        algorithm: envelope.algorithm,
        signature: envelope.signature,
        serial: beginning.serial,
        inner_algorithm: beginning.algorithm,
        issuer: fields.issuer,
        validity: fields.validity,
        subject: fields.subject,
        key: fields.key,
        known,
    }
}

// The certificate that is all of s. A strict reader refuses an extension that it does not know and that is critical.
pub fn read(s: &[u8], strict: bool) -> Reading
    ensures { result ≡ read_certificate s.now strict }
{
    let envelope = envelope::envelope_of(s)?;
    let content = envelope.content;
    let beginning = envelope::begin(s, content.start, content.end, envelope.algorithm)?;
    let fields = fields_at(s, beginning.algorithm.end, content.end)?;
    match extensions::all_at(s, fields.key.end, content.end, strict) {
        Ok(known) => Ok(whole(envelope, beginning, fields, known)),
        Err(e) => Err(e),
    }
}

// Subject, key and name constraints of a certificate that is trusted. Versions before v3 are not read.
#[tactic(auto, unfolding(crate::specs::Model::read_anchor, crate::specs::Model::anchor_of))]
pub fn anchor(s: &[u8]) -> Result<TrustAnchor, Refusal>
    ensures { result ≡ read_anchor s.now }
{
    match read(s, false) {
        Ok(c) => Ok(TrustAnchor {
            subject: c.subject,
            key: c.key,
            constraints: c.known.name_constraints,
        }),
        Err(Refusal::UNSUPPORTED_CERT_VERSION) => Err(Refusal::BAD_DER),
        Err(e) => Err(e),
    }
}
