// DNS names: which names a presented one stands for.
#![tactic(auto)]

ghost use Rattle.std.specs.Prelude.{◌≡◌};
ghost use Rattle.dns.specs.Model.{same_text, stands_for, in_subtree, meets_subtree, match_wanted, match_permitted, match_excluded};

use refusal::Refusal;

// Whether two texts are the same but for the case of ASCII letters.
fn same_text(x: &[u8], y: &[u8]) -> bool
    ensures { result ≡ same_text x.now y.now }
{
    x.eq_ignore_ascii_case(y)
}

// Whether the presented p stands for the name q, which does not end in a dot.
fn stands_for(p: &[u8], q: &[u8]) -> bool
    ensures { result ≡ stands_for p.now q.now }
{
    if texts::begins(p, b'*') {
        return same_text(texts::rest(p), texts::from_dot(q));
    }
    same_text(p, q)
}

// Whether p, its star taken as a label, is in the subtree of the entry q.
#[tactic(auto, using(der::proofs::Laws::tests, texts::proofs::Laws::rest_all), unfolding(crate::specs::Model::in_subtree))]
fn in_subtree(p: &[u8], q: &[u8]) -> bool
    ensures { result ≡ in_subtree p.now q.now }
{
    if q.is_empty() {
        return true;
    }
    if p.len() <= q.len() {
        return same_text(p, q);
    }
    let at = p.len() - q.len();
    (texts::begins(q, b'.') || p[at - 1] == b'.') && same_text(&p[at..], q)
}

// Whether p, its star as any label, can be in the subtree of the entry q. The first dot of q itself is passed over,
// so that an entry that begins with a dot is met by a star for its first label too.
fn meets_subtree(p: &[u8], q: &[u8]) -> bool
    ensures { result ≡ meets_subtree p.now q.now }
{
    in_subtree(p, q)
        || texts::begins(p, b'*') && same_text(texts::rest(p), texts::from_dot(texts::rest(q)))
}

// Whether the presented name p is good for the wanted name q.
pub fn match_wanted(p: &[u8], q: &[u8]) -> Result<bool, Refusal>
    ensures { result ≡ match_wanted p.now q.now }
{
    if !labels::valid_presented(p) || !labels::valid_wanted(q) {
        return Err(Refusal::MALFORMED_DNS_IDENTIFIER);
    }
    Ok(stands_for(p, texts::relative(q)))
}

// Whether the presented name p, all that it stands for, is in the subtree of the permitted entry q.
pub fn match_permitted(p: &[u8], q: &[u8]) -> Result<bool, Refusal>
    ensures { result ≡ match_permitted p.now q.now }
{
    if !labels::valid_presented(p) {
        return Err(Refusal::MALFORMED_DNS_IDENTIFIER);
    }
    if !labels::valid_entry(q) {
        return Err(Refusal::MALFORMED_NAME_CONSTRAINT);
    }
    Ok(in_subtree(p, q))
}

// Whether the presented name p, something that it stands for, is in the subtree of the excluded entry q.
pub fn match_excluded(p: &[u8], q: &[u8]) -> Result<bool, Refusal>
    ensures { result ≡ match_excluded p.now q.now }
{
    if !labels::valid_presented(p) {
        return Err(Refusal::MALFORMED_DNS_IDENTIFIER);
    }
    if !labels::valid_entry(q) {
        return Err(Refusal::MALFORMED_NAME_CONSTRAINT);
    }
    Ok(meets_subtree(p, q))
}
