// Which texts are DNS names: labels with a dot between each two, byte by byte.
#![tactic(auto)]

ghost use Rattle.std.specs.Prelude.{◌≡◌};
ghost use Rattle.labels.specs.Model.{whole, take_byte, host_text, valid_presented, valid_wanted, valid_entry};

// The most bytes of a name's text: RFC 1034, 3.1, without the length byte of the first label and the root's.
const LONGEST_NAME: usize = 253;

const LONGEST_LABEL: usize = 63;

// The label that is being read: its bytes so far, whether the last is a hyphen, whether all are digits.
#[derive(Clone, Copy)]
struct Label {
    size: usize,
    hyphen: bool,
    digits: bool,
}

const FRESH: Label = Label {
    size: 0,
    hyphen: false,
    digits: true,
};

// Whether a label may end here.
fn whole(l: Label) -> bool
    ensures { result ≡ whole l }
{
    l.size != 0 && !l.hyphen
}

// The label with one more byte of the name, if that may follow.
#[tactic(auto, unfolding(crate::specs::Model::take_byte, crate::specs::Names::digit, crate::specs::Names::letter, crate::specs::Names::capital))]
fn take_byte(l: Label, b: u8) -> Option<Label>
    ensures { result ≡ take_byte l b }
{
    match b {
        // Most bytes are small letters, so they are looked for first.
        b'a'..=b'z' if l.size < LONGEST_LABEL => Some(Label {
            size: l.size + 1,
            hyphen: false,
            digits: false,
        }),
        b'.' if whole(l) => Some(FRESH),
        b'.' => None,
        _ if l.size >= LONGEST_LABEL => None,
        b'-' if l.size > 0 => Some(Label {
            size: l.size + 1,
            hyphen: true,
            digits: false,
        }),
        b'0'..=b'9' => Some(Label {
            size: l.size + 1,
            hyphen: false,
            digits: l.digits,
        }),
        b'A'..=b'Z' | b'_' => Some(Label {
            size: l.size + 1,
            hyphen: false,
            digits: false,
        }),
        _ => None,
    }
}

// Whether a text is one or more labels with a dot between each two, the last not all digits.
fn host(h: &[u8]) -> bool
    ensures { result ≡ host_text h.now }
{
    let mut label = FRESH;
    for b in h {
        let Some(next) = take_byte(label, *b) else {
            return false;
        };
        label = next;
    }
    !label.digits && whole(label)
}

// Whether a text is a name that a certificate may present.
#[tactic(auto, using(der::proofs::Laws::tests), unfolding(crate::specs::Model::valid_presented, crate::specs::Model::valid_starred))]
pub fn valid_presented(h: &[u8]) -> bool
    ensures { result ≡ valid_presented h.now }
{
    if h.len() > LONGEST_NAME {
        return false;
    }
    if texts::begins(h, b'*') {
        let tail = texts::rest(h);
        if !texts::begins(tail, b'.') {
            return false;
        }
        let name = texts::rest(tail);
        return !texts::from_dot(name).is_empty() && host(name);
    }
    host(h)
}

// Whether a text is a name that may be looked for.
pub fn valid_wanted(h: &[u8]) -> bool
    ensures { result ≡ valid_wanted h.now }
{
    if h.len() > LONGEST_NAME {
        return false;
    }
    host(texts::relative(h))
}

// Whether a text is an entry of name constraints.
pub fn valid_entry(h: &[u8]) -> bool
    ensures { result ≡ valid_entry h.now }
{
    if h.len() > LONGEST_NAME {
        return false;
    }
    if h.is_empty() {
        return true;
    }
    if texts::begins(h, b'.') {
        return host(texts::rest(h));
    }
    host(h)
}
