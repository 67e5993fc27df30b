// A certificate's extensions: RFC 5280, 4.2. Those that are known are kept by place, each in a slot of its own.
#![tactic(auto)]

ghost use Rattle.std.specs.Prelude.{◌≡◌};
ghost use Rattle.extensions.specs.Model.{number, number_of, known_kind, kind_of, slot_of, set_slot, none_known, extension_in, content_of, ruled, remembered, moved, taken, gathered, extensions_at};

use der::Span;
use refusal::Refusal;

// The last number of a known extension's identifier, id-ce and this: RFC 5280, 4.2.1.
pub const KEY_USAGE: u8 = 15;

pub const ALTERNATIVE_NAME: u8 = 17;

pub const BASIC_CONSTRAINTS: u8 = 19;

pub const NAME_CONSTRAINTS: u8 = 30;

pub const DISTRIBUTION_POINTS: u8 = 31;

pub const KEY_PURPOSES: u8 = 37;

// Stands for every other identifier.
pub const UNKNOWN: u8 = 0;

// The kinds of extension that are known.
#[derive(Clone, Copy)]
enum Kind {
    KeyUsage,
    AlternativeName,
    BasicConstraints,
    NameConstraints,
    DistributionPoints,
    KeyPurposes,
}

// An extension that is there, and where, or is not: then both places are 0.
#[derive(Clone, Copy)]
pub struct Slot {
    pub known: bool,
    pub start: usize,
    pub end: usize,
}

const ABSENT: Slot = Slot {
    known: false,
    start: 0,
    end: 0,
};

// The value of key usage; of each other the content of the SEQUENCE that is its value.
#[derive(Clone, Copy)]
pub struct Known {
    pub key_usage: Slot,
    pub alternative_name: Slot,
    pub basic_constraints: Slot,
    pub name_constraints: Slot,
    pub distribution_points: Slot,
    pub key_purposes: Slot,
}

#[derive(Clone, Copy)]
struct Extension {
    identifier: Span,
    critical: bool,
    value: Span,
}

// What is kept of an extension, and of which kind it is.
#[derive(Clone, Copy)]
struct Find {
    kind: Kind,
    start: usize,
    end: usize,
}

// The kind whose identifier is id-ce and this number.
#[inline(always)]
fn known_kind(n: u8) -> Option<Kind>
    ensures { number_of result ≡ known_kind n }
{
    match n {
        KEY_USAGE => Some(Kind::KeyUsage),
        ALTERNATIVE_NAME => Some(Kind::AlternativeName),
        BASIC_CONSTRAINTS => Some(Kind::BasicConstraints),
        NAME_CONSTRAINTS => Some(Kind::NameConstraints),
        DISTRIBUTION_POINTS => Some(Kind::DistributionPoints),
        KEY_PURPOSES => Some(Kind::KeyPurposes),
        _ => None,
    }
}

// The kind of the identifier that stands between the places: 55 1d, which is id-ce, and one byte.
#[inline(always)]
fn kind_of(s: &[u8], from: usize, to: usize) -> Option<Kind>
    ensures { number_of result ≡ kind_of s.now from to }
{
    match s.get(from..to) {
        Some([0x55, 0x1d, n]) => known_kind(*n),
        _ => None,
    }
}

// The slot of a kind.
#[tactic(auto, unfolding(crate::specs::Model::slot_of, crate::specs::Model::number))]
#[inline(always)]
fn slot_of(known: Known, kind: Kind) -> Slot
    ensures { result ≡ slot_of known (number kind) }
{
    match kind {
        Kind::KeyUsage => known.key_usage,
        Kind::AlternativeName => known.alternative_name,
        Kind::BasicConstraints => known.basic_constraints,
        Kind::NameConstraints => known.name_constraints,
        Kind::DistributionPoints => known.distribution_points,
        Kind::KeyPurposes => known.key_purposes,
    }
}

// The slots with a new one for `kind`.
#[tactic(auto, unfolding(crate::specs::Model::set_slot, crate::specs::Model::put, crate::specs::Model::number))]
#[inline(always)]
fn set_slot(known: Known, kind: Kind, new: Slot) -> Known
    ensures { result ≡ set_slot known (number kind) new }
{
    match kind {
        Kind::KeyUsage => Known {
            key_usage: new,
            ..known
        },
        Kind::AlternativeName => Known {
            alternative_name: new,
            ..known
        },
        Kind::BasicConstraints => Known {
            basic_constraints: new,
            ..known
        },
        Kind::NameConstraints => Known {
            name_constraints: new,
            ..known
        },
        Kind::DistributionPoints => Known {
            distribution_points: new,
            ..known
        },
        Kind::KeyPurposes => Known {
            key_purposes: new,
            ..known
        },
    }
}

#[inline(always)]
fn none_known() -> Known
    ensures { result ≡ none_known }
{
    Known {
        key_usage: ABSENT,
        alternative_name: ABSENT,
        basic_constraints: ABSENT,
        name_constraints: ABSENT,
        distribution_points: ABSENT,
        key_purposes: ABSENT,
    }
}

// Identifier, criticality and value. What comes after them is the caller's.
#[inline(always)]
fn extension_in(s: &[u8], from: usize, to: usize) -> Result<Extension, Refusal>
    ensures { result ≡ extension_in s.now from to }
{
    let identifier = der::expect(s, from, to, 0x06, Refusal::BAD_DER)?;
    let (critical, next) = values::read_bool(s, identifier.end, to)?;
    let value = der::expect(s, next, to, 0x04, Refusal::BAD_DER)?;
    Ok(Extension {
        identifier,
        critical,
        value,
    })
}

// What is kept of a known extension's value: of key usage all, of each other the content of the one SEQUENCE that it is.
#[inline(always)]
fn content_of(s: &[u8], kind: Kind, value: Span) -> Result<Span, Refusal>
    ensures { result ≡ content_of s.now (number kind) value }
{
    if let Kind::KeyUsage = kind {
        return Ok(value);
    }
    let content = der::expect(s, value.start, value.end, 0x30, Refusal::BAD_DER)?;
    if content.end != value.end {
        return Err(Refusal::BAD_DER);
    }
    Ok(content)
}

// What to keep of one more extension, beside the slots so far.
#[inline(always)]
fn remember(s: &[u8], x: Extension, known: Known, strict: bool) -> Result<Option<Find>, Refusal>
    ensures { ruled known result ≡ remembered s.now x known strict }
{
    let Some(kind) = kind_of(s, x.identifier.start, x.identifier.end) else {
        if strict && x.critical {
            return Err(Refusal::UNSUPPORTED_CRITICAL_EXTENSION);
        }
        return Ok(None);
    };
    if slot_of(known, kind).known {
        return Err(Refusal::EXTENSION_VALUE_INVALID);
    }
    let Span { start, end } = content_of(s, kind, x.value)?;
    Ok(Some(Find { kind, start, end }))
}

// What to keep of the extension at `at`, and the place after it. The extension is judged before what is left over in it.
#[inline(always)]
fn take_one(
    s: &[u8],
    at: usize,
    to: usize,
    known: Known,
    strict: bool,
) -> Result<(usize, Option<Find>), Refusal>
    ensures { moved known result ≡ taken s.now at to known strict }
{
    let whole = der::expect(s, at, to, 0x30, Refusal::TRAILING_EXTENSION)?;
    let x = extension_in(s, whole.start, whole.end)?;
    let find = remember(s, x, known, strict)?;
    if x.value.end != whole.end {
        return Err(Refusal::TRAILING_EXTENSION);
    }
    Ok((whole.end, find))
}

// The extensions between the places, one after the other. The slots are changed here alone, where one is filled.
#[inline(always)]
fn gather(s: &[u8], from: usize, to: usize, strict: bool) -> Result<Known, Refusal>
    ensures { result ≡ gathered s.now from to strict }
{
    let mut at = from;
    let mut known = none_known();
    while at < to {
        let (next, find) = take_one(s, at, to, known, strict)?;
        at = next;
        if let Some(Find { kind, start, end }) = find {
            let new = Slot {
                known: true,
                start,
                end,
            };
            known = set_slot(known, kind, new);
        }
    }
    Ok(known)
}

// The extensions that end the signed content, or none: RFC 5280, 4.1.2.9. Unique identifiers stand where they are looked for, and
// are refused.
#[inline(always)]
pub fn all_at(s: &[u8], from: usize, to: usize, strict: bool) -> Result<Known, Refusal>
    ensures { result ≡ extensions_at s.now from to strict }
{
    if from == to {
        return Ok(none_known());
    }
    let field = der::expect(s, from, to, 0xa3, Refusal::TRAILING_CERTIFICATE_EXTENSIONS)?;
    let list = der::expect(s, field.start, field.end, 0x30, Refusal::TRAILING_EXTENSION)?;
    // The slots are handed on as they are: to open and close the result would copy them.
    match gather(s, list.start, list.end, strict) {
        Ok(_) if list.end != field.end => Err(Refusal::TRAILING_CERTIFICATE_EXTENSIONS),
        Ok(_) if field.end != to => Err(Refusal::TRAILING_CERTIFICATE_TBS_CERTIFICATE),
        kept => kept,
    }
}
