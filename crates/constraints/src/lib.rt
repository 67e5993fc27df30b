// Name constraints of a path, RFC 5280, 4.2.1.10: those of the anchor and of each issuer against every certificate below, down to the end
// entity.
#![tactic(auto)]

ghost use Rattle.entries.specs.Tally.{Leaves};
ghost use Rattle.subtrees.specs.Noted.{noted};
ghost use Rattle.constraints.specs.Paths.{noted_at, certs_at};
ghost use Rattle.subtrees.specs.Model.{certificate_as};
ghost use Rattle.constraints.specs.Model.{below_in, constraints_in, own_in, anchored_in, path_constraints_in};

use cert::Reading;
use lent::Lent;
use refusal::Refusal;
use subtrees::Subtrees;

// The lists against the names of the certificate with a number. Here and below `left` is how many comparisons are left.
fn numbered(lent: &Lent, s: &[u8], lists: Subtrees, n: usize, left: &mut u64) -> Result<(), Refusal>
    ensures { Leaves left.old left.new result (certificate_as s.now lists (noted_at lent.now n)) }
{
    subtrees::certificate(s, lists, lent.certificate(n), lent.reading(n), left)
}

// The certificates of a path from the one at `level` down to the end entity.
fn below(
    lent: &Lent,
    s: &[u8],
    lists: Subtrees,
    path: [usize; 7],
    level: usize,
    left: &mut u64,
) -> Result<(), Refusal>
    ensures { Leaves left.old left.new result (below_in s.now lists (certs_at (noted_at lent.now) path level)) }
{
    numbered(lent, s, lists, lent::number_at(path, level), left)?;
    for k in (0..level).rev() {
        numbered(lent, s, lists, lent::number_at(path, k), left)?;
    }
    Ok(())
}

// The name constraints whose content stands between the places, against the certificates from `level` down. What is left over after the
// lists is noticed last.
fn constrain(
    lent: &Lent,
    s: &[u8],
    from: usize,
    to: usize,
    path: [usize; 7],
    level: usize,
    left: &mut u64,
) -> Result<(), Refusal>
    ensures { Leaves left.old left.new result (constraints_in s.now from to (certs_at (noted_at lent.now) path level)) }
{
    let lists = subtrees::subtrees_at(s, from, to)?;
    below(lent, s, lists, path, level, left)?;
    if lists.excluded.end == to {
        return Ok(());
    }
    Err(Refusal::BAD_DER)
}

// The own constraints of the certificate t, of which that much is known, if it has any, against the certificates from `level` down.
fn own(
    lent: &Lent,
    t: &[u8],
    reading: Reading,
    path: [usize; 7],
    level: usize,
    left: &mut u64,
) -> Result<(), Refusal>
    ensures { Leaves left.old left.new result (own_in (noted t.now reading) (certs_at (noted_at lent.now) path level)) }
{
    let Ok(c) = reading else {
        return Err(Refusal::BAD_DER);
    };
    let held = c.known.name_constraints;
    if held.known {
        return constrain(lent, t, held.start, held.end, path, level, left);
    }
    Ok(())
}

// The same of the certificate with a number.
fn issuer(
    lent: &Lent,
    n: usize,
    path: [usize; 7],
    level: usize,
    left: &mut u64,
) -> Result<(), Refusal>
    ensures { Leaves left.old left.new result (own_in (noted_at lent.now n) (certs_at (noted_at lent.now) path level)) }
{
    own(
        lent,
        lent.certificate(n),
        lent.reading(n),
        path,
        level,
        left,
    )
}

// The constraints of the anchor, if it has any, against the certificates from `level` down.
fn anchored(
    lent: &Lent,
    path: [usize; 7],
    level: usize,
    anchor: &[u8],
    bound: bool,
    left: &mut u64,
) -> Result<(), Refusal>
    ensures { Leaves left.old left.new result (anchored_in anchor.now bound (certs_at (noted_at lent.now) path level)) }
{
    if bound {
        return constrain(lent, anchor, 0, anchor.len(), path, level, left);
    }
    Ok(())
}

// The name constraints of a path under an anchor, whose own are in `anchor` if it is `bound`. path[0] is the end entity's number and
// path[depth] that of the highest certificate. The numbers are those of crate `lent`.
pub fn path_constraints(
    lent: &Lent,
    path: [usize; 7],
    depth: usize,
    anchor: &[u8],
    bound: bool,
    left: &mut u64,
) -> Result<(), Refusal>
    ensures { Leaves left.old left.new result (path_constraints_in anchor.now bound (certs_at (noted_at lent.now) path depth)) }
{
    anchored(lent, path, depth, anchor, bound, left)?;
    for k in (0..depth).rev() {
        issuer(lent, lent::number_at(path, k + 1), path, k, left)?;
    }
    Ok(())
}
