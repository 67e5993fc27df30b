// What a signature question is about: the signed bytes, the algorithm and the signature of a certificate, and the parts of a key.
#![tactic(auto)]

ghost use Rattle.std.specs.Prelude.{◌≡◌};
ghost use Rattle.asked.specs.Model.{key_in, question_in, reply_in};
ghost use Rattle.lent.specs.Lent.{readings, each_now};

use cert::key::Key;
use der::Span;
use lent::Lent;
use refusal::Refusal;

// Places in the certificate's bytes. Those of the key are in an anchor's key or in the certificate that the key is of. A key that cannot be
// read is no reason not to ask: it is not opened where the algorithm is unknown.
#[derive(Clone, Copy)]
pub struct Question {
    pub signed: Span,
    pub algorithm: Span,
    pub signature: Span,
    pub key: Result<Key, Refusal>,
}

// The parts of the key that has a number: an anchor's, or a certificate's.
fn key_of(lent: &Lent, keys: &[&[u8]], number: usize) -> Result<Key, Refusal>
    ensures { result ≡ key_in (readings lent.now) (each_now lent.now.issuers.now) lent.now.end.now (each_now keys.now) lent.now.anchors number }
{
    if number < lent.anchors {
        let t = keys.get(number).ok_or(Refusal::BAD_DER)?;
        return cert::key::parts(t, 0, t.len());
    }
    let key = lent.outline(number)?.key;
    cert::key::parts(lent.certificate(number), key.start, key.end)
}

// Whether key `key` signed the certificate `number`.
pub fn question_of(
    lent: &Lent,
    keys: &[&[u8]],
    key: usize,
    number: usize,
) -> Result<Question, Refusal>
    ensures { result ≡ question_in (readings lent.now) (each_now lent.now.issuers.now) lent.now.end.now (each_now keys.now) lent.now.anchors key number }
{
    let outline = lent.outline(number)?;
    Ok(Question {
        signed: outline.signed,
        algorithm: outline.algorithm,
        signature: outline.signature,
        key: key_of(lent, keys, key),
    })
}

// What an answer comes to, 0 for yes: that no such algorithm is known is said before the key is opened; any other answer is given for a
// key that can be read.
pub fn reply_for(lent: &Lent, keys: &[&[u8]], key: usize, answer: Refusal) -> Refusal
    ensures { result ≡ reply_in (readings lent.now) (each_now lent.now.issuers.now) lent.now.end.now (each_now keys.now) lent.now.anchors key answer }
{
    if answer == Refusal::UNSUPPORTED_SIGNATURE_ALGORITHM {
        return answer;
    }
    match key_of(lent, keys, key) {
        Ok(_) => answer,
        Err(e) => e,
    }
}
