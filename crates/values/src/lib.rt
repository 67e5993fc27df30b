// BOOLEAN and INTEGER, as far as they are read as values.
#![tactic(auto)]

ghost use Rattle.std.specs.Prelude.{◌≡◌, ◌<◌};
ghost use Rattle.values.specs.Model.{only_byte, truth_in, read_bool, positive_in, nonnegative, small_in, read_small};

use der::Span;
use refusal::Refusal;

// The value of a content's first byte and the place after it, if that byte is all of the content.
#[inline(always)]
fn only_byte(from: usize, to: usize, value: bool) -> Result<(bool, usize), Refusal>
    requires { from < to }
    ensures { result ≡ only_byte from to value }
{
    if to - from != 1 {
        return Err(Refusal::TRAILING_BOOL);
    }
    Ok((value, to))
}

// The value of a BOOLEAN's content, which is all that stands between the places, and the place after it.
#[inline(always)]
fn truth_in(s: &[u8], from: usize, to: usize) -> Result<(bool, usize), Refusal>
    ensures { result ≡ truth_in s.now from to }
{
    if s.len() < to || to <= from {
        return Err(Refusal::BAD_DER);
    }
    match s[from] {
        0xff => only_byte(from, to, true),
        0x00 => only_byte(from, to, false),
        _ => Err(Refusal::BAD_DER),
    }
}

// The BOOLEAN at `from` and the place after it: false, and nothing passed, where none stands there.
#[inline(always)]
pub fn read_bool(s: &[u8], from: usize, to: usize) -> Result<(bool, usize), Refusal>
    ensures { result ≡ read_bool s.now from to }
{
    if s.len() < to {
        return Err(Refusal::BAD_DER);
    }
    if to <= from || s[from] != 0x01 {
        return Ok((false, from));
    }
    let content = der::expect(s, from, to, 0x01, Refusal::TRAILING_BOOL)?;
    truth_in(s, content.start, content.end)
}

// The digits of an INTEGER's content, if it is not negative and has no byte too many.
#[inline(always)]
fn positive_in(s: &[u8], from: usize, to: usize) -> Result<Span, Refusal>
    ensures { result ≡ positive_in s.now from to }
{
    if s.len() < to || to <= from || 0x80 <= s[from] {
        return Err(Refusal::BAD_DER);
    }
    if 0 < s[from] || to - from == 1 {
        return Ok(Span {
            start: from,
            end: to,
        });
    }
    if s[from + 1] < 0x80 {
        return Err(Refusal::BAD_DER);
    }
    Ok(Span {
        start: from + 1,
        end: to,
    })
}

// The INTEGER at `from`, which is not negative: where its digits stand, highest first, with no zero before them.
#[inline(always)]
pub fn nonnegative_at(s: &[u8], from: usize, to: usize) -> Result<Span, Refusal>
    ensures { result ≡ nonnegative s.now from to }
{
    let content = der::expect(s, from, to, 0x02, Refusal::BAD_DER)?;
    positive_in(s, content.start, content.end)
}

// The one digit between the places, and the place after it.
#[inline(always)]
fn small_in(s: &[u8], from: usize, to: usize) -> Result<(u8, usize), Refusal>
    ensures { result ≡ small_in s.now from to }
{
    if s.len() < to || to <= from || to - from != 1 {
        return Err(Refusal::BAD_DER);
    }
    Ok((s[from], to))
}

// The INTEGER at `from`, from 0 to 255, and the place after it.
#[inline(always)]
pub fn read_small(s: &[u8], from: usize, to: usize) -> Result<(u8, usize), Refusal>
    ensures { result ≡ read_small s.now from to }
{
    let digits = nonnegative_at(s, from, to)?;
    small_in(s, digits.start, digits.end)
}
