// What was read of the certificates that a request lends, in rows of numbers that the caller lends: each certificate is read once, and looked up
// from then on. The intermediates have a row each, in their order, and the end entity has the one after them.
#![tactic(auto)]

ghost use Rattle.std.specs.Prelude.{◌≡◌, map, true};
ghost use Rattle.cert.specs.Model.{read_certificate};
ghost use Rattle.rows.specs.Model.{outlined, row_reading};
ghost use Rattle.table.specs.Model.{reading_in, Held};

use cert::Reading;
use refusal::Refusal;
use rows::Outline;

// The row of the certificate that is all of s.
fn row_of(s: &[u8]) -> [usize; 37]
    ensures { row_reading result ≡ read_certificate s.now true }
{
    match cert::read(s, true) {
        Ok(c) => rows::accepted(c),
        Err(e) => rows::refused(e),
    }
}

// Fills the rows that there are. A certificate without a row is read again where it is needed.
pub fn fill(table: &mut [[usize; 37]], issuers: &[&[u8]], end: &[u8])
    ensures { Held table.new (map (λ x. x.now) issuers.now) end.now }
{
    for (i, s) in issuers.iter().enumerate() {
        if table.len() <= i {
            return;
        }
        table[i] = row_of(s);
    }
    let i = issuers.len();
    if i < table.len() {
        table[i] = row_of(end);
    }
}

// What was read of the certificate s, whose row has the number i.
pub fn reading(table: &[[usize; 37]], i: usize, s: &[u8]) -> Reading
    ensures { result ≡ reading_in table.now i s.now }
{
    if table.len() <= i {
        return cert::read(s, true);
    }
    let row = table[i];
    let mark = row[0];
    if mark == 0 {
        return Ok(rows::certificate_in(row));
    }
    if 0xffff < mark - 1 {
        return Err(Refusal::BAD_DER);
    }
    Err(Refusal::from((mark - 1) as u16))
}

// The outline of what was read of the certificate s.
fn outline_read(s: &[u8]) -> Result<Outline, Refusal>
    ensures { result ≡ outlined (read_certificate s.now true) }
{
    let certificate = cert::read(s, true)?;
    Ok(rows::outline_of(certificate))
}

// The same of the certificate s, whose row has the number i.
#[inline(always)]
pub fn outline_at(table: &[[usize; 37]], i: usize, s: &[u8]) -> Result<Outline, Refusal>
    ensures { result ≡ outlined (reading_in table.now i s.now) }
{
    if table.len() <= i {
        return outline_read(s);
    }
    let row = table[i];
    let mark = row[0];
    if mark == 0 {
        return Ok(rows::outline_in(row));
    }
    if 0xffff < mark - 1 {
        return Err(Refusal::BAD_DER);
    }
    Err(Refusal::from((mark - 1) as u16))
}
