// A certificate as a row of numbers, and back; and what the search uses of one.
#![tactic(auto)]

ghost use Rattle.std.specs.Prelude.{◌≡◌, cond, ◌<◌};
ghost use Rattle.rows.specs.Model.{span_in, slot_in, known_in, certificate_in, outline_of, row_reading};

use cert::Certificate;
use der::Span;
use extensions::{Known, Slot};
use refusal::Refusal;

// What the search uses of a certificate, but for the checks of the certificate itself.
#[derive(Clone, Copy)]
pub struct Outline {
    pub signed: Span,
    pub algorithm: Span,
    pub signature: Span,
    pub issuer: Span,
    pub subject: Span,
    pub key: Span,
    pub constrained: bool,
}

fn flag(b: bool) -> usize
    ensures { result ≡ cond b 1 0 }
{
    if b { 1 } else { 0 }
}

// The row of a certificate: 0, and then its places.
pub fn accepted(c: Certificate) -> [usize; 37]
    ensures { row_reading result ≡ Ok c }
{
    let known = c.known;
    [
        0,
        c.signed.start,
        c.signed.end,
        c.algorithm.start,
        c.algorithm.end,
        c.signature.start,
        c.signature.end,
        c.serial.start,
        c.serial.end,
        c.inner_algorithm.start,
        c.inner_algorithm.end,
        c.issuer.start,
        c.issuer.end,
        c.validity.start,
        c.validity.end,
        c.subject.start,
        c.subject.end,
        c.key.start,
        c.key.end,
        flag(known.key_usage.known),
        known.key_usage.start,
        known.key_usage.end,
        flag(known.alternative_name.known),
        known.alternative_name.start,
        known.alternative_name.end,
        flag(known.basic_constraints.known),
        known.basic_constraints.start,
        known.basic_constraints.end,
        flag(known.name_constraints.known),
        known.name_constraints.start,
        known.name_constraints.end,
        flag(known.distribution_points.known),
        known.distribution_points.start,
        known.distribution_points.end,
        flag(known.key_purposes.known),
        known.key_purposes.start,
        known.key_purposes.end,
    ]
}

// The row of a certificate that was refused: why, and one more.
pub fn refused(e: Refusal) -> [usize; 37]
    ensures { row_reading result ≡ Err e }
{
    let mut row = [0usize; 37];
    row[0] = e.number() as usize + 1;
    row
}

#[inline(always)]
fn span_at(row: [usize; 37], k: usize) -> Span
    requires { k < 36 }
    ensures { result ≡ span_in row k }
{
    Span {
        start: row[k],
        end: row[k + 1],
    }
}

#[inline(always)]
fn slot_at(row: [usize; 37], k: usize) -> Slot
    requires { k < 35 }
    ensures { result ≡ slot_in row k }
{
    Slot {
        known: row[k] != 0,
        start: row[k + 1],
        end: row[k + 2],
    }
}

fn known_in(row: [usize; 37]) -> Known
    ensures { result ≡ known_in row }
{
    Known {
        key_usage: slot_at(row, 19),
        alternative_name: slot_at(row, 22),
        basic_constraints: slot_at(row, 25),
        name_constraints: slot_at(row, 28),
        distribution_points: slot_at(row, 31),
        key_purposes: slot_at(row, 34),
    }
}

// The certificate whose places a row holds.
pub fn certificate_in(row: [usize; 37]) -> Certificate
    ensures { result ≡ certificate_in row }
{
    Certificate {
        signed: span_at(row, 1),
        algorithm: span_at(row, 3),
        signature: span_at(row, 5),
        serial: span_at(row, 7),
        inner_algorithm: span_at(row, 9),
        issuer: span_at(row, 11),
        validity: span_at(row, 13),
        subject: span_at(row, 15),
        key: span_at(row, 17),
        known: known_in(row),
    }
}

// The outline of a certificate.
pub fn outline_of(c: Certificate) -> Outline
    ensures { result ≡ outline_of c }
{
    Outline {
        signed: c.signed,
        algorithm: c.algorithm,
        signature: c.signature,
        issuer: c.issuer,
        subject: c.subject,
        key: c.key,
        constrained: c.known.name_constraints.known,
    }
}

// The outline of the certificate whose places a row holds.
#[inline(always)]
pub fn outline_in(row: [usize; 37]) -> Outline
    ensures { result ≡ outline_of (certificate_in row) }
{
    Outline {
        signed: span_at(row, 1),
        algorithm: span_at(row, 3),
        signature: span_at(row, 5),
        issuer: span_at(row, 11),
        subject: span_at(row, 15),
        key: span_at(row, 17),
        constrained: slot_at(row, 28).known,
    }
}
