// The checks of one certificate by itself: time, role and path length, purposes. Each answers the first refusal that it finds.
#![tactic(auto)]

ghost use Rattle.std.specs.Prelude.{◌≡◌};
ghost use Rattle.refusal.specs.Model.{outcome};
ghost use Rattle.checks.specs.Model.{in_time, valid_at, in_role, bounded_role, basic_in, basic_of, purpose_in, purposes_of, own_of};

use cert::Certificate;
use refusal::Refusal;

// A moment against the two of a validity, both included; then whether what was read ends where it is to end.
fn in_time(start: u64, last: u64, time: u64, next: usize, to: usize) -> Result<(), Refusal>
    ensures { result ≡ outcome (in_time start last time next to) }
{
    if last < start {
        return Err(Refusal::INVALID_CERT_VALIDITY);
    }
    if time < start {
        return Err(Refusal::CERT_NOT_VALID_YET);
    }
    if last < time {
        return Err(Refusal::CERT_EXPIRED);
    }
    if next != to {
        return Err(Refusal::BAD_DER);
    }
    Ok(())
}

// RFC 5280, 4.1.2.5: the validity whose content stands between the places.
fn validity(s: &[u8], from: usize, to: usize, time: u64) -> Result<(), Refusal>
    ensures { result ≡ outcome (valid_at s.now from to time) }
{
    let (start, middle) = moment::time_at(s, from, to)?;
    let (last, next) = moment::time_at(s, middle, to)?;
    in_time(start, last, time, next, to)
}

// Whether the certificate may stand where it stands: an issuer is a CA, and no more intermediates are below it than its path length;
// an end entity is no CA.
fn in_role(issuer: bool, authority: bool, length: usize, below: usize) -> Result<(), Refusal>
    ensures { result ≡ outcome (in_role issuer authority length below) }
{
    match (issuer, authority) {
        (true, true) if length < below => Err(Refusal::PATH_LEN_CONSTRAINT_VIOLATED),
        (true, false) => Err(Refusal::END_ENTITY_USED_AS_CA),
        (false, true) => Err(Refusal::CA_USED_AS_END_ENTITY),
        _ => Ok(()),
    }
}

// The path length, read of an end entity too.
fn bounded_role(
    s: &[u8],
    from: usize,
    to: usize,
    issuer: bool,
    authority: bool,
    below: usize,
) -> Result<(), Refusal>
    ensures { result ≡ outcome (bounded_role s.now from to issuer authority below) }
{
    let (length, next) = values::read_small(s, from, to)?;
    in_role(issuer, authority, usize::from(length), below)?;
    if next != to {
        return Err(Refusal::BAD_DER);
    }
    Ok(())
}

// RFC 5280, 4.2.1.9: the basic constraints whose content stands between the places.
fn basic_in(s: &[u8], from: usize, to: usize, issuer: bool, below: usize) -> Result<(), Refusal>
    ensures { result ≡ outcome (basic_in s.now from to issuer below) }
{
    let (authority, next) = values::read_bool(s, from, to)?;
    if next == to {
        return in_role(issuer, authority, below, below);
    }
    bounded_role(s, next, to, issuer, authority, below)
}

// A certificate without basic constraints is no CA's.
fn basic(
    s: &[u8],
    present: bool,
    from: usize,
    to: usize,
    issuer: bool,
    below: usize,
) -> Result<(), Refusal>
    ensures { result ≡ outcome (basic_of s.now present from to issuer below) }
{
    if present {
        return basic_in(s, from, to, issuer, below);
    }
    in_role(issuer, false, below, below)
}

// RFC 5280, 4.2.1.12: whether the wanted purpose is among those between the places. Those after it are not read.
fn purpose_in(s: &[u8], from: usize, to: usize, wanted: &[u8]) -> Result<(), Refusal>
    ensures { result ≡ outcome (purpose_in s.now from to wanted.now) }
{
    let mut at = from;
    while at < to {
        let purpose = der::expect(s, at, to, 0x06, Refusal::BAD_DER)?;
        if parts::same(s, purpose.start, purpose.end, wanted, 0, wanted.len()) {
            return Ok(());
        }
        at = purpose.end;
    }
    Err(Refusal::REQUIRED_EKU_NOT_FOUND)
}

// The purposes that an extension lists, if there is one; one that lists none is refused.
fn purposes(
    s: &[u8],
    present: bool,
    from: usize,
    to: usize,
    wanted: &[u8],
    demanded: bool,
) -> Result<(), Refusal>
    ensures { result ≡ outcome (purposes_of s.now present from to wanted.now demanded) }
{
    if present {
        if from == to {
            return Err(Refusal::EMPTY_EKU_EXTENSION);
        }
        return purpose_in(s, from, to, wanted);
    }
    if demanded {
        return Err(Refusal::REQUIRED_EKU_NOT_FOUND);
    }
    Ok(())
}

// The first refusal of a certificate that was read of s: `issuer` says that it is not the end entity, and `below` how many intermediates
// stand between the two.
pub fn own(
    s: &[u8],
    c: Certificate,
    time: u64,
    wanted: &[u8],
    demanded: bool,
    issuer: bool,
    below: usize,
) -> Result<(), Refusal>
    ensures { result ≡ outcome (own_of s.now c time wanted.now demanded issuer below) }
{
    validity(s, c.validity.start, c.validity.end, time)?;
    let role = c.known.basic_constraints;
    basic(s, role.known, role.start, role.end, issuer, below)?;
    let listed = c.known.key_purposes;
    purposes(s, listed.known, listed.start, listed.end, wanted, demanded)
}
