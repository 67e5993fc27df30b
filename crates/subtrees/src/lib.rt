// The two lists of name constraints, RFC 5280, 4.2.1.10, against the names of one certificate.
#![tactic(auto)]

ghost use Rattle.std.specs.Prelude.{◌≡◌};
ghost use Rattle.der.specs.Places.{part};
ghost use Rattle.entries.specs.Tally.{Leaves};
ghost use Rattle.subtrees.specs.Noted.{noted};
ghost use Rattle.subtrees.specs.Model.{list_at, subtrees_at, name, alternatives, certificate_as};

use cert::Reading;
use der::Span;
use names::general;
use names::general::Name;
use refusal::Refusal;

// The two lists of name constraints, each without its header; one that is not there is empty.
#[derive(Clone, Copy)]
pub struct Subtrees {
    pub permitted: Span,
    pub excluded: Span,
}

// The list of a tag at `from`; where it is not there an empty one.
fn list_at(s: &[u8], from: usize, to: usize, tag: u8) -> Result<Span, Refusal>
    ensures { result ≡ list_at s.now from to tag }
{
    if s.len() < to {
        return Err(Refusal::BAD_DER);
    }
    if to <= from || s[from] != tag {
        return Ok(Span {
            start: from,
            end: from,
        });
    }
    der::expect(s, from, to, tag, Refusal::BAD_DER)
}

// The lists of the name constraints whose content stands between the places. What comes after them is the caller's.
pub fn subtrees_at(s: &[u8], from: usize, to: usize) -> Result<Subtrees, Refusal>
    ensures { result ≡ subtrees_at s.now from to }
{
    let permitted = list_at(s, from, to, 0xa0)?;
    let excluded = list_at(s, permitted.end, to, 0xa1)?;
    Ok(Subtrees {
        permitted,
        excluded,
    })
}

// The name p of a kind against both lists. Here and below `left` is how many comparisons are left.
fn name(s: &[u8], lists: Subtrees, kind: u8, p: &[u8], left: &mut u64) -> Result<(), Refusal>
    ensures { Leaves left.old left.new result (name s.now lists kind p.now) }
{
    let permitted = lists.permitted;
    entries::all(s, permitted.start, permitted.end, false, kind, p, left)?;
    let excluded = lists.excluded;
    entries::all(s, excluded.start, excluded.end, true, kind, p, left)
}

// The alternative names of t between the places.
fn alternatives(
    s: &[u8],
    lists: Subtrees,
    t: &[u8],
    from: usize,
    to: usize,
    left: &mut u64,
) -> Result<(), Refusal>
    ensures { Leaves left.old left.new result (alternatives s.now lists t.now from to) }
{
    let mut at = from;
    while at < to {
        let Name { kind, start, end } = general::general_name(t, at, to)?;
        name(s, lists, kind, &t[start..end], left)?;
        at = end;
    }
    Ok(())
}

// What stands between two places, as far as t has it: what is known of t need not have been read of t.
fn cut<'a>(t: &'a [u8], from: usize, to: usize) -> &'a [u8]
    ensures { result.now ≡ part t.now from to }
{
    let end = to.min(t.len());
    if end <= from {
        return &[];
    }
    &t[from..end]
}

// The certificate t, of which that much is known: its alternative names, then its subject, which is a directory name.
pub fn certificate(
    s: &[u8],
    lists: Subtrees,
    t: &[u8],
    reading: Reading,
    left: &mut u64,
) -> Result<(), Refusal>
    ensures { Leaves left.old left.new result (certificate_as s.now lists (noted t.now reading)) }
{
    let Ok(c) = reading else {
        return Err(Refusal::BAD_DER);
    };
    let names = c.known.alternative_name;
    alternatives(s, lists, t, names.start, names.end, left)?;
    let subject = cut(t, c.subject.start, c.subject.end);
    name(s, lists, general::DIRECTORY, subject, left)
}
