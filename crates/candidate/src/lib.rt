// What a candidate is to a path: an anchor to try, an issuer to extend the path with, or passed over.
#![tactic(auto)]

ghost use Rattle.std.specs.Prelude.{◌≡◌, length, ◌<◌};
ghost use Rattle.lent.specs.Lent.{readings, each_now, lent_of, pre};
ghost use Rattle.candidate.specs.Model.{has_both_as, on_path_in, anchor_verdict, is_flagged, is_whole, anchor_at, issuer_verdict_in, verdict_in};

use der::Span;
use lent::{Anchors, Lent, MOST_INTERMEDIATES, Request};
use refusal::Refusal;
use rows::Outline;

#[derive(Clone, Copy)]
pub enum Verdict {
    Pass(Refusal),
    Anchor,
    Extend,
}

// Whether the certificate t, of which that much is known, has the subject and the key that stand in s.
fn has_both(s: &[u8], subject: Span, key: Span, t: &[u8], outline: Result<Outline, Refusal>) -> bool
    ensures { result ≡ has_both_as outline s.now subject key t.now }
{
    let Ok(other) = outline else {
        return false;
    };
    let same = |p: Span, q: Span| parts::same(s, p.start, p.end, t, q.start, q.end);
    same(subject, other.subject) && same(key, other.key)
}

// Whether some certificate of the path, the end entity among them, has the subject and the key that stand in s.
fn on_path(lent: &Lent, path: [usize; 7], depth: usize, s: &[u8], subject: Span, key: Span) -> bool
    requires { depth < 7 }
    ensures { result ≡ on_path_in (readings lent.now) (each_now lent.now.issuers.now) lent.now.end.now lent.now.anchors s.now subject key (pre path depth) }
{
    path[..=depth].iter().rev().any(|n| {
        let t = lent.certificate(*n);
        has_both(s, subject, key, t, lent.outline(*n))
    })
}

// The verdict on an anchor for a certificate whose issuer stands in `head`.
fn anchor_verdict(
    subject: &[u8],
    key: &[u8],
    distrusted: &[&[u8]],
    head: &[u8],
    issuer: Span,
) -> Verdict
    ensures { result ≡ anchor_verdict subject.now key.now (each_now distrusted.now) head.now issuer }
{
    if !parts::same(subject, 0, subject.len(), head, issuer.start, issuer.end) {
        return Verdict::Pass(Refusal::UNKNOWN_ISSUER);
    }
    if lent::is_distrusted(distrusted, key, 0, key.len()) {
        return Verdict::Pass(Refusal::CERT_DISTRUSTED);
    }
    Verdict::Anchor
}

// Whether the flag of anchor i says that it has name constraints. One that is not there says that it has none.
pub fn is_flagged(bound: &[u8], i: usize) -> bool
    ensures { result ≡ is_flagged bound.now i }
{
    i < bound.len() && bound[i] != 0
}

// Whether the list has the name constraints of anchor i, if its flag says that it has any.
fn is_whole(constraints: &[&[u8]], bound: &[u8], i: usize) -> bool
    ensures { result ≡ is_whole (each_now constraints.now) bound.now i }
{
    !is_flagged(bound, i) || i < constraints.len()
}

// The verdict on anchor i; one without a key, or without the name constraints that it has by its flag, is nobody's issuer.
fn anchor_at(
    anchors: &Anchors,
    distrusted: &[&[u8]],
    head: &[u8],
    issuer: Span,
    i: usize,
) -> Verdict
    requires { i < length anchors.now.subjects.now }
    ensures { result ≡ anchor_at (each_now anchors.now.subjects.now) (each_now anchors.now.keys.now)
        (each_now anchors.now.constraints.now) anchors.now.bound.now (each_now distrusted.now) head.now issuer i }
{
    if i < anchors.keys.len() && is_whole(anchors.constraints, anchors.bound, i) {
        return anchor_verdict(
            anchors.subjects[i],
            anchors.keys[i],
            distrusted,
            head,
            issuer,
        );
    }
    Verdict::Pass(Refusal::UNKNOWN_ISSUER)
}

// The verdict on the certificate s, of which that much is known, as an issuer: for a path whose newest certificate has its issuer in `head`.
fn issuer_verdict(
    lent: &Lent,
    path: [usize; 7],
    depth: usize,
    head: &[u8],
    issuer: Span,
    s: &[u8],
    outline: Result<Outline, Refusal>,
) -> Verdict
    requires { depth < 7 }
    ensures { result ≡ issuer_verdict_in (readings lent.now) (each_now lent.now.issuers.now) lent.now.end.now lent.now.anchors
        (pre path depth) head.now issuer s.now outline }
{
    match outline {
        Ok(c) => {
            if !parts::same(
                s,
                c.subject.start,
                c.subject.end,
                head,
                issuer.start,
                issuer.end,
            ) {
                return Verdict::Pass(Refusal::UNKNOWN_ISSUER);
            }
            if on_path(lent, path, depth, s, c.subject, c.key) {
                return Verdict::Pass(Refusal::UNKNOWN_ISSUER);
            }
            Verdict::Extend
        }
        Err(why) => Verdict::Pass(why),
    }
}

// The verdict on candidate i for a path.
pub fn verdict_on(request: &Request, path: [usize; 7], depth: usize, i: usize) -> Verdict
    ensures { result ≡ verdict_in (readings (lent_of request.now)) (each_now request.now.issuers.now) request.now.end.now
        (each_now request.now.anchors.subjects.now) (each_now request.now.anchors.keys.now)
        (each_now request.now.anchors.constraints.now) request.now.anchors.bound.now
        (each_now request.now.policy.distrusted.now) (pre path depth) i }
{
    if MOST_INTERMEDIATES < depth {
        return Verdict::Pass(Refusal::MAXIMUM_PATH_DEPTH_EXCEEDED);
    }
    let lent = request.lent();
    let n = lent::number_at(path, depth);
    let head = lent.certificate(n);
    match lent.outline(n) {
        Ok(c) => {
            if i < lent.anchors {
                return anchor_at(
                    &request.anchors,
                    request.policy.distrusted,
                    head,
                    c.issuer,
                    i,
                );
            }
            issuer_verdict(
                &lent,
                path,
                depth,
                head,
                c.issuer,
                lent.certificate(i),
                lent.outline(i),
            )
        }
        Err(e) => Verdict::Pass(e),
    }
}
