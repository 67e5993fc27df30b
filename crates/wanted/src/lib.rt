// The name that an end entity must be good for.
#![tactic(auto)]

ghost use Rattle.std.specs.Prelude.{◌≡◌};
ghost use Rattle.refusal.specs.Model.{outcome};
ghost use Rattle.conditions.specs.Model.{name_in};
ghost use Rattle.wanted.specs.Model.{name_by};

use cert::{Certificate, Reading};
use names::general;
use refusal::Refusal;

// The kinds of name: none is wanted, a DNS name, an IP address (4 or 16 bytes).
pub const NONE: u8 = 0;

pub const DNS: u8 = 1;

pub const IP: u8 = 2;

// Whether an end entity that was read is good for the name, or why not. No certificate is good for a name of any other kind.
fn refusal_from(end: &[u8], kind: u8, name: &[u8], c: Certificate) -> Result<(), Refusal>
    ensures { result ≡ outcome (name_in end.now kind name.now c) }
{
    let names = c.known.alternative_name;
    match kind {
        NONE => Ok(()),
        DNS => general::good_for_dns(end, names.start, names.end, name),
        IP => general::good_for_ip(end, names.start, names.end, name),
        _ => Err(Refusal::CERT_NOT_VALID_FOR_NAME),
    }
}

// Why the end entity, of which that much is known, is not good for the name. A row of the table may say that it was refused with 0, which
// is no refusal.
pub fn refusal_for(reading: Reading, end: &[u8], kind: u8, name: &[u8]) -> Result<(), Refusal>
    ensures { result ≡ outcome (name_by reading end.now kind name.now) }
{
    match reading {
        Ok(c) => refusal_from(end, kind, name, c),
        Err(e) if e.number() == 0 => Ok(()),
        Err(e) => Err(e),
    }
}
