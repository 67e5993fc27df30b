// Parts of a text: its first byte, what follows it, what comes before a dot at its end, what it has from its first dot on.
#![tactic(auto)]

ghost use Rattle.std.specs.Prelude.{◌≡◌, drop};
ghost use Rattle.texts.specs.Model.{begins, relative_text, from_dot};

// Whether a text begins with a byte.
#[tactic(auto, using(crate::proofs::Laws::begins_none, crate::proofs::Laws::begins_some))]
pub fn begins(h: &[u8], b: u8) -> bool
    ensures { result ≡ begins h.now b }
{
    match h {
        [first, ..] => *first == b,
        [] => false,
    }
}

// A text without its first byte.
pub fn rest(h: &[u8]) -> &[u8]
    ensures { result.now ≡ drop 1 h.now }
{
    match h {
        [_, rest @ ..] => rest,
        [] => h,
    }
}

// A text without the dot that ends it, if one does.
#[tactic(auto, unfolding(crate::specs::Model::relative_text))]
pub fn relative(h: &[u8]) -> &[u8]
    ensures { result.now ≡ relative_text h.now }
{
    match h {
        [before @ .., b'.'] => before,
        _ => h,
    }
}

// What a text has from its first dot on.
pub fn from_dot(h: &[u8]) -> &[u8]
    ensures { result.now ≡ from_dot h.now }
{
    match h.iter().position(|b| *b == b'.') {
        Some(at) => &h[at..],
        None => &[],
    }
}
