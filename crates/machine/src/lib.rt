// The search for a path as a machine: its states, the question of each, and what they stand for.
#![tactic(auto)]

ghost use Rattle.std.specs.Prelude.{◌≡◌};
ghost use Rattle.machine.specs.Machine.{key_at, cert_at, place_of};

use refusal::Refusal;

// What the machine waits for, or how it ended. Ask: whether a key signed a certificate. Offer: whether the caller is content with the path.
// Spent: which budget is used up.
#[derive(Clone, Copy)]
pub enum Phase {
    Walk,
    Ask,
    Offer,
    Found,
    Refused(Refusal),
    Spent(Refusal),
}

#[derive(Clone, Copy)]
pub struct State {
    // the path, end entity first; at each level the next candidate
    pub path: [usize; 7],
    pub next: [usize; 7],
    pub depth: usize,
    // the place in the path of the certificate asked about, and the anchor that is tried
    pub at: usize,
    // 0: the question is about that certificate; else about a list, the first of which is 1
    pub list: usize,
    pub anchor: usize,
    // what is left of the budgets, and the refusal so far
    pub signatures: u64,
    pub extensions: u64,
    pub comparisons: u64,
    pub best: Refusal,
    pub phase: Phase,
}

// The numbers of a question: whether the key of candidate `key` signed the certificate.
#[derive(Clone, Copy)]
pub struct Numbers {
    pub key: usize,
    pub certificate: usize,
    pub list: usize,
}

// The place of the certificate asked about, at most the highest.
pub fn place(s: State) -> usize
    ensures { result ≡ place_of s }
{
    if s.at < s.depth { s.at } else { s.depth }
}

// The question of a state: the highest certificate is asked of the anchor's key, each other of the key of the one above it.
pub fn asked(s: State) -> Numbers
    ensures { result ≡ record { key = key_at s; certificate = cert_at s; list = s.list } }
{
    let key = if s.at < s.depth {
        lent::number_at(s.path, s.at + 1)
    } else {
        s.anchor
    };
    let list = s.list;
    Numbers {
        key,
        certificate: lent::number_at(s.path, place(s)),
        list,
    }
}
