// The entries of one list of subtrees, RFC 5280, 4.2.1.10, against one name.
#![tactic(auto)]

ghost use Rattle.std.specs.Prelude.{◌≡◌};
ghost use Rattle.refusal.specs.Model.{outcome};
ghost use Rattle.entries.specs.Tally.{Leaves};
ghost use Rattle.entries.specs.Model.{base_at, compared, settled, judged, entries, closed};

use names::general;
use names::general::Name;
use refusal::Refusal;

// Of the permitted entries of the name's kind: whether one has the name, and whether one has it not.
#[derive(Clone, Copy)]
pub struct Seen {
    pub hit: bool,
    pub miss: bool,
}

// The base of the entry at `at`; the next entry begins where the base ends. A base and nothing after it: no minimum and no maximum.
#[inline(always)]
fn base_at(s: &[u8], at: usize, to: usize) -> Result<Name, Refusal>
    ensures { result ≡ base_at s.now at to }
{
    let whole = der::expect(s, at, to, 0x30, Refusal::BAD_DER)?;
    let base = general::general_name(s, whole.start, whole.end)?;
    if base.end == whole.end {
        return Ok(base);
    }
    Err(Refusal::TRAILING_GENERAL_NAME)
}

// Whether the name p is taken to be in the subtree of the base q, which is of the same kind. No directory name and no URI is taken to
// be in a permitted subtree, or out of an excluded one; for the other kinds no subtree is understood.
#[inline(always)]
fn compare(excluded: bool, kind: u8, p: &[u8], q: &[u8]) -> Result<bool, Refusal>
    ensures { result ≡ compared excluded kind p.now q.now }
{
    match kind {
        general::DNS if excluded => dns::match_excluded(p, q),
        general::DNS => dns::match_permitted(p, q),
        general::IP => ip::match_subnet(p, q),
        general::DIRECTORY | general::URI => Ok(excluded),
        _ => Err(Refusal::NAME_CONSTRAINT_VIOLATION),
    }
}

// What a comparison with the entry before `next` comes to: where to go on, and what was seen by then.
#[inline(always)]
fn settle(
    excluded: bool,
    seen: Seen,
    next: usize,
    answer: Result<bool, Refusal>,
) -> Result<(usize, Seen), Refusal>
    ensures { result ≡ settled excluded seen next answer }
{
    match (answer?, excluded) {
        (true, true) => Err(Refusal::NAME_CONSTRAINT_VIOLATION),
        (true, false) => Ok((next, Seen { hit: true, ..seen })),
        (false, true) => Ok((next, seen)),
        (false, false) => Ok((next, Seen { miss: true, ..seen })),
    }
}

// The entry at `at` against the name p of a kind.
#[inline(always)]
fn judge(
    s: &[u8],
    at: usize,
    to: usize,
    excluded: bool,
    kind: u8,
    p: &[u8],
    seen: Seen,
) -> Result<(usize, Seen), Refusal>
    ensures { result ≡ judged s.now to excluded kind p.now at seen }
{
    let base = base_at(s, at, to)?;
    if base.kind != kind {
        return Ok((base.end, seen));
    }
    let answer = compare(excluded, kind, p, &s[base.start..base.end]);
    settle(excluded, seen, base.end, answer)
}

// The answer of a list that was read to its end: a name for which there are permitted entries is in one of them.
#[inline(always)]
fn close(seen: Seen) -> Result<(), Refusal>
    ensures { result ≡ outcome (closed seen) }
{
    if !seen.hit && seen.miss {
        return Err(Refusal::NAME_CONSTRAINT_VIOLATION);
    }
    Ok(())
}

// The list between the places against the name p of a kind. Of the comparisons that are left one is taken for each entry before it is read,
// and a list is read to its end whatever was found.
pub fn all(
    s: &[u8],
    from: usize,
    to: usize,
    excluded: bool,
    kind: u8,
    p: &[u8],
    left: &mut u64,
) -> Result<(), Refusal>
    ensures { Leaves left.old left.new result (entries s.now from to excluded kind p.now) }
{
    let mut at = from;
    let mut seen = Seen {
        hit: false,
        miss: false,
    };
    while at < to {
        if *left == 0 {
            return Err(Refusal::MAXIMUM_NAME_CONSTRAINT_COMPARISONS_EXCEEDED);
        }
        *left -= 1;
        (at, seen) = judge(s, at, to, excluded, kind, p, seen)?;
    }
    close(seen)
}
