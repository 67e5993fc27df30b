// What callers are told of a question, and of a certificate that is trusted: places in the lent bytes, as numbers.
#![tactic(auto)]

ghost use Rattle.std.specs.Prelude.{◌≡◌};
ghost use Rattle.cert.specs.Model.{read_anchor};
ghost use Rattle.lent.specs.Lent.{readings, each_now};
ghost use Rattle.asked.specs.Model.{question_in};
ghost use Rattle.told.specs.Model.{asked_of, trusted_of};

use lent::Lent;

// What a question is about: the numbers of key and certificate; places in the certificate, and in what holds the key (an anchor's key, or
// the certificate that the key is of). `refusal`: why there is no such certificate; `key_refusal`: why the key cannot be read.
#[repr(C)]
#[derive(Clone, Copy)]
pub struct Asked {
    pub key: usize,
    pub certificate: usize,
    pub signed_start: usize,
    pub signed_end: usize,
    pub algorithm_start: usize,
    pub algorithm_end: usize,
    pub signature_start: usize,
    pub signature_end: usize,
    pub key_algorithm_start: usize,
    pub key_algorithm_end: usize,
    pub key_bits_start: usize,
    pub key_bits_end: usize,
    pub refusal: u16,
    pub key_refusal: u16,
}

// What is taken of a certificate that is trusted: places in its bytes; `bound`: whether it has name constraints.
#[repr(C)]
#[derive(Clone, Copy)]
pub struct Trusted {
    pub subject_start: usize,
    pub subject_end: usize,
    pub key_start: usize,
    pub key_end: usize,
    pub constraints_start: usize,
    pub constraints_end: usize,
    pub refusal: u16,
    pub bound: u8,
}

// Whether key `key` signed the certificate `certificate`.
pub fn question(lent: &Lent, keys: &[&[u8]], key: usize, certificate: usize) -> Asked
    ensures { result ≡ asked_of key certificate (question_in (readings lent.now) (each_now lent.now.issuers.now)
        lent.now.end.now (each_now keys.now) lent.now.anchors key certificate) }
{
    let nothing = Asked {
        key,
        certificate,
        signed_start: 0,
        signed_end: 0,
        algorithm_start: 0,
        algorithm_end: 0,
        signature_start: 0,
        signature_end: 0,
        key_algorithm_start: 0,
        key_algorithm_end: 0,
        key_bits_start: 0,
        key_bits_end: 0,
        refusal: 0,
        key_refusal: 0,
    };
    match asked::question_of(lent, keys, key, certificate) {
        Ok(question) => {
            let unopened = Asked {
                signed_start: question.signed.start,
                signed_end: question.signed.end,
                algorithm_start: question.algorithm.start,
                algorithm_end: question.algorithm.end,
                signature_start: question.signature.start,
                signature_end: question.signature.end,
                ..nothing
            };
            match question.key {
                Ok(parts) => Asked {
                    key_algorithm_start: parts.algorithm.start,
                    key_algorithm_end: parts.algorithm.end,
                    key_bits_start: parts.bits.start,
                    key_bits_end: parts.bits.end,
                    ..unopened
                },
                Err(e) => Asked {
                    key_refusal: e.number(),
                    ..unopened
                },
            }
        }
        Err(e) => Asked {
            refusal: e.number(),
            ..nothing
        },
    }
}

// The anchor that a trusted certificate is.
pub fn anchor(certificate: &[u8]) -> Trusted
    ensures { result ≡ trusted_of (read_anchor certificate.now) }
{
    match cert::anchor(certificate) {
        Ok(anchor) => Trusted {
            subject_start: anchor.subject.start,
            subject_end: anchor.subject.end,
            key_start: anchor.key.start,
            key_end: anchor.key.end,
            constraints_start: anchor.constraints.start,
            constraints_end: anchor.constraints.end,
            refusal: 0,
            bound: u8::from(anchor.constraints.known),
        },
        Err(e) => Trusted {
            subject_start: 0,
            subject_end: 0,
            key_start: 0,
            key_end: 0,
            constraints_start: 0,
            constraints_end: 0,
            refusal: e.number(),
            bound: 0,
        },
    }
}
