// One certificate in its place on a path: the checks before any signature, in order, of which the first that fails decides.
#![tactic(auto)]

ghost use Rattle.std.specs.Prelude.{◌≡◌};
ghost use Rattle.refusal.specs.Model.{outcome};
ghost use Rattle.lent.specs.Lent.{readings, each_now, pre};
ghost use Rattle.path.specs.Model.{checked_as, check_in};

use cert::Reading;
use lent::{Lent, Policy};
use refusal::Refusal;

// The checks of the certificate s, of which that much is known: its key is not distrusted, and then its own.
fn check_certificate(
    s: &[u8],
    reading: Reading,
    policy: &Policy,
    issuer: bool,
    below: usize,
) -> Result<(), Refusal>
    ensures { result ≡ outcome (checked_as reading s.now (each_now policy.now.distrusted.now)
        policy.now.time policy.now.purpose.now policy.now.demanded issuer below) }
{
    match reading {
        Ok(c) => {
            if lent::is_distrusted(policy.distrusted, s, c.key.start, c.key.end) {
                return Err(Refusal::CERT_DISTRUSTED);
            }
            checks::own(
                s,
                c,
                policy.time,
                policy.purpose,
                policy.demanded,
                issuer,
                below,
            )
        }
        Err(e) => {
            // The refusal 0 is none. No certificate that is read gives it, but a row that was made up may.
            if e.number() == 0 { Ok(()) } else { Err(e) }
        }
    }
}

// The checks of a path's newest certificate.
pub fn check(lent: &Lent, policy: &Policy, path: [usize; 7], depth: usize) -> Result<(), Refusal>
    ensures { result ≡ outcome (check_in (readings lent.now) (each_now lent.now.issuers.now) lent.now.end.now lent.now.anchors
        (each_now policy.now.distrusted.now) policy.now.time policy.now.purpose.now policy.now.demanded
        (pre path depth)) }
{
    let n = lent::number_at(path, depth);
    let s = lent.certificate(n);
    let reading = lent.reading(n);
    if depth == 0 {
        return check_certificate(s, reading, policy, false, 0);
    }
    check_certificate(s, reading, policy, true, depth - 1)
}
