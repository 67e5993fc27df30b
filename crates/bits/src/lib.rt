// BIT STRING: without unused bits, and as flags.
#![tactic(auto)]

ghost use Rattle.std.specs.Prelude.{◌≡◌};
ghost use Rattle.bits.specs.Model.{whole_octets, bits_at, flags_in, flag_at};

use der::Span;
use refusal::Refusal;

// The octets of a BIT STRING's content, none of whose bits is unused.
#[inline(always)]
fn whole_octets(s: &[u8], from: usize, to: usize) -> Result<Span, Refusal>
    ensures { result ≡ whole_octets s.now from to }
{
    if s.len() < to || to <= from || s[from] != 0 {
        return Err(Refusal::BAD_DER);
    }
    Ok(Span {
        start: from + 1,
        end: to,
    })
}

// The BIT STRING at `from`, none of whose bits is unused: where its octets stand.
#[inline(always)]
pub fn bits_at(s: &[u8], from: usize, to: usize) -> Result<Span, Refusal>
    ensures { result ≡ bits_at s.now from to }
{
    let content = der::expect(s, from, to, 0x03, Refusal::TRAILING_BIT_STRING)?;
    whole_octets(s, content.start, content.end)
}

// The flags of a BIT STRING's content, which is all that stands between the places: where their octets stand.
pub fn flags_in(s: &[u8], from: usize, to: usize) -> Result<Span, Refusal>
    ensures { result ≡ flags_in s.now from to }
{
    if s.len() < to || to <= from {
        return Err(Refusal::BAD_DER);
    }
    let unused = s[from];
    if 7 < unused {
        return Err(Refusal::BAD_DER);
    }
    if to - from == 1 {
        if 0 < unused {
            return Err(Refusal::BAD_DER);
        }
    } else if s[to - 1] % (1u8 << unused) != 0 {
        return Err(Refusal::BAD_DER);
    }
    Ok(Span {
        start: from + 1,
        end: to,
    })
}

// Flag k of the octets between the places; one beyond their end is not set.
pub fn flag_at(s: &[u8], from: usize, to: usize, k: usize) -> bool
    ensures { result ≡ flag_at s.now from to k }
{
    if s.len() < to || to <= from || to - from <= k / 8 {
        return false;
    }
    (s[from + k / 8] >> (7 - k % 8)) % 2 == 1
}
