// A reader of DER values: one tag byte, a definite length in its shortest form, and the content, all
// given by places in a slice that is never copied.
#![tactic(auto)]

ghost use Rattle.std.specs.Prelude.{◌≡◌, ◌+◌, ◌≤◌, ◌<◌, length};
ghost use Rattle.der.specs.Model.{ByteAt, high_tag, long_form, read_length, read_limited, read_value, expect_at};

use refusal::Refusal;

// Every content in a certificate is shorter than this.
pub const LIMIT: usize = 65535;

// A length, and the place after it.
#[derive(Clone, Copy)]
pub struct Length {
    len: usize,
    next: usize,
}

// A value: its tag, and where its content begins and ends. The next value begins where the content ends.
#[derive(Clone, Copy)]
pub struct Value {
    pub tag: u8,
    pub start: usize,
    pub end: usize,
}

#[derive(Clone, Copy)]
pub struct Span {
    pub start: usize,
    pub end: usize,
}

// Whether a tag byte announces a tag of more bytes.
#[inline(always)]
fn high_tag(t: u8) -> bool
    ensures { result ≡ high_tag t }
{
    t % 32 == 31
}

// The byte at a place, as a number to count with.
#[inline(always)]
fn byte_at(s: &[u8], at: usize) -> usize
    requires { at < length s.now }
    ensures { ByteAt s.now at result }
{
    s[at] as usize
}

// A length of one byte after the first.
fn long_1(s: &[u8], at: usize, to: usize) -> Option<Length>
    requires { (at < to) × (to ≤ length s.now) }
    ensures { result ≡ long_form s.now at to 1 }
{
    if to - at <= 1 {
        return None;
    }
    let len = byte_at(s, at + 1);
    if len < 0x80 {
        return None;
    }
    Some(Length { len, next: at + 2 })
}

// A length of two bytes after the first.
fn long_2(s: &[u8], at: usize, to: usize) -> Option<Length>
    requires { (at < to) × (to ≤ length s.now) }
    ensures { result ≡ long_form s.now at to 2 }
{
    if to - at <= 2 {
        return None;
    }
    let a = byte_at(s, at + 1);
    let b = byte_at(s, at + 2);
    let len = a * 0x100 + b;
    if len < 0x100 {
        return None;
    }
    Some(Length { len, next: at + 3 })
}

// A length of three bytes after the first.
fn long_3(s: &[u8], at: usize, to: usize) -> Option<Length>
    requires { (at < to) × (to ≤ length s.now) }
    ensures { result ≡ long_form s.now at to 3 }
{
    if to - at <= 3 {
        return None;
    }
    let a = byte_at(s, at + 1);
    let b = byte_at(s, at + 2);
    let c = byte_at(s, at + 3);
    let len = a * 0x10000 + b * 0x100 + c;
    if len < 0x10000 {
        return None;
    }
    Some(Length { len, next: at + 4 })
}

// A length of four bytes after the first.
fn long_4(s: &[u8], at: usize, to: usize) -> Option<Length>
    requires { (at < to) × (to ≤ length s.now) }
    ensures { result ≡ long_form s.now at to 4 }
{
    if to - at <= 4 {
        return None;
    }
    let a = byte_at(s, at + 1);
    let b = byte_at(s, at + 2);
    let c = byte_at(s, at + 3);
    let d = byte_at(s, at + 4);
    let len = a * 0x1000000 + b * 0x10000 + c * 0x100 + d;
    if len < 0x1000000 {
        return None;
    }
    Some(Length { len, next: at + 5 })
}

// The length that is written at `at`, in a slice of which nothing from `to` on is read.
#[inline(always)]
fn read_length(s: &[u8], at: usize, to: usize) -> Option<Length>
    ensures { result ≡ read_length s.now at to }
{
    if s.len() < to || to <= at {
        return None;
    }
    let first = byte_at(s, at);
    // Most lengths are of this form: tested by itself it comes before the others.
    if first < 0x80 {
        return Some(Length {
            len: first,
            next: at + 1,
        });
    }
    match first {
        0x81 => long_1(s, at, to),
        0x82 => long_2(s, at, to),
        0x83 => long_3(s, at, to),
        0x84 => long_4(s, at, to),
        _ => None,
    }
}

// The value at `from`, whose content is shorter than `limit` and ends at `to` or before.
#[inline(always)]
pub fn read_limited(s: &[u8], from: usize, to: usize, limit: usize) -> Option<Value>
    ensures { result ≡ read_limited s.now from to limit }
{
    if s.len() < to || to <= from {
        return None;
    }
    let tag = s[from];
    if high_tag(tag) {
        return None;
    }
    let Length { len, next } = read_length(s, from + 1, to)?;
    if limit <= len || to - next < len {
        return None;
    }
    Some(Value {
        tag,
        start: next,
        end: next + len,
    })
}

// The value at `from`, as a certificate may hold it.
#[inline(always)]
pub fn read_value(s: &[u8], from: usize, to: usize) -> Option<Value>
    ensures { result ≡ read_value s.now from to }
{
    read_limited(s, from, to, LIMIT)
}

// The content of the value at `from`, if one stands there and has the tag; else the refusal that the caller gives.
#[inline(always)]
pub fn expect(s: &[u8], from: usize, to: usize, tag: u8, refusal: Refusal) -> Result<Span, Refusal>
    ensures { result ≡ expect_at s.now from to tag refusal }
{
    let value = read_value(s, from, to).ok_or(refusal)?;
    if value.tag != tag {
        return Err(refusal);
    }
    Ok(Span {
        start: value.start,
        end: value.end,
    })
}
