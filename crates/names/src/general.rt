// General names, and whether one of them is the name that is looked for.
ghost use Rattle.std.specs.Prelude.{◌≡◌, ◌≤◌, length};
ghost use Rattle.names.specs.Model.{is_kind, general_name, is_wanted, try_name, good_for, good_for_dns, good_for_ip};

use der::Value;
use refusal::Refusal;

// The kinds, by their tags: RFC 5280, 4.2.1.6.
pub const OTHER: u8 = 0xa0;

pub const MAIL: u8 = 0x81;

pub const DNS: u8 = 0x82;

pub const X400: u8 = 0xa3;

pub const DIRECTORY: u8 = 0xa4;

pub const EDI_PARTY: u8 = 0xa5;

pub const URI: u8 = 0x86;

pub const IP: u8 = 0x87;

pub const REGISTERED: u8 = 0x88;

// A general name: its kind, and where its content begins and ends. The next name begins where the content ends.
#[derive(Clone, Copy)]
pub struct Name {
    pub kind: u8,
    pub start: usize,
    pub end: usize,
}

// What one of several names comes to: the one that is looked for, or where the next begins.
#[derive(Clone, Copy)]
enum Tried {
    Good,
    Next(usize),
}

// An arm for each kind is one test of a bit; kinds joined by `|` are tested one after the other, which took 1.5 times as long and more.
#[tactic(auto, unfolding(crate::specs::Model::is_kind, crate::specs::General::among, crate::specs::General::choices))]
#[inline(always)]
fn is_kind(tag: u8) -> bool
    ensures { result ≡ is_kind tag }
{
    match tag {
        OTHER => true,
        MAIL => true,
        DNS => true,
        X400 => true,
        DIRECTORY => true,
        EDI_PARTY => true,
        URI => true,
        IP => true,
        REGISTERED => true,
        _ => false,
    }
}

// The general name at `from`.
#[inline(always)]
pub fn general_name(s: &[u8], from: usize, to: usize) -> Result<Name, Refusal>
    ensures { result ≡ general_name s.now from to }
{
    match der::read_value(s, from, to) {
        Some(Value { tag, start, end }) if is_kind(tag) => Ok(Name {
            kind: tag,
            start,
            end,
        }),
        _ => Err(Refusal::BAD_DER),
    }
}

// Whether the name of a kind, whose content stands between the places, is good for the one that is looked for, which is
// of the kind `sought`.
fn is_wanted(s: &[u8], kind: u8, start: usize, end: usize, sought: u8, wanted: &[u8]) -> bool
    requires { (start ≤ end) × (end ≤ length s.now) }
    ensures { result ≡ is_wanted s.now kind start end sought wanted.now }
{
    if kind != sought {
        return false;
    }
    let p = &s[start..end];
    if kind == DNS {
        dns::match_wanted(p, wanted).unwrap_or(false)
    } else {
        ip::same_address(p, wanted)
    }
}

// The name at `at`: the one that is looked for, or where the next begins.
fn try_name(s: &[u8], at: usize, to: usize, sought: u8, wanted: &[u8]) -> Result<Tried, Refusal>
    ensures { result ≡ try_name s.now at to sought wanted.now }
{
    let Name { kind, start, end } = general_name(s, at, to)?;
    if is_wanted(s, kind, start, end, sought, wanted) {
        return Ok(Tried::Good);
    }
    Ok(Tried::Next(end))
}

// Whether the names between the places, up to the first that cannot be read, have the one that is looked for.
fn good_for(s: &[u8], from: usize, to: usize, sought: u8, wanted: &[u8]) -> Result<(), Refusal>
    ensures { result ≡ good_for s.now from to sought wanted.now }
{
    let mut at = from;
    while at < to {
        match try_name(s, at, to, sought, wanted)? {
            Tried::Next(next) => at = next,
            Tried::Good => return Ok(()),
        }
    }
    Err(Refusal::CERT_NOT_VALID_FOR_NAME)
}

// Whether the alternative names between the places are good for a DNS name.
pub fn good_for_dns(s: &[u8], from: usize, to: usize, wanted: &[u8]) -> Result<(), Refusal>
    ensures { result ≡ good_for_dns s.now from to wanted.now }
{
    if !labels::valid_wanted(wanted) {
        return Err(Refusal::MALFORMED_DNS_IDENTIFIER);
    }
    good_for(s, from, to, DNS, wanted)
}

// Whether the alternative names between the places are good for an IP address.
pub fn good_for_ip(s: &[u8], from: usize, to: usize, wanted: &[u8]) -> Result<(), Refusal>
    ensures { result ≡ good_for_ip s.now from to wanted.now }
{
    good_for(s, from, to, IP, wanted)
}
