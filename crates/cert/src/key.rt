// The two parts of a subject's public key: RFC 5280, 4.1.2.7.
ghost use Rattle.std.specs.Prelude.{◌≡◌};
ghost use Rattle.cert.specs.Model.{key_parts};

use der::Span;
use refusal::Refusal;

#[derive(Clone, Copy)]
pub struct Key {
    pub algorithm: Span,
    pub bits: Span,
}

// The parts of the key whose content is all that stands between the places.
pub fn parts(s: &[u8], from: usize, to: usize) -> Result<Key, Refusal>
    ensures { result ≡ key_parts s.now from to }
{
    let algorithm = der::expect(s, from, to, 0x30, Refusal::BAD_DER)?;
    let bits = bits::bits_at(s, algorithm.end, to)?;
    if bits.end == to {
        Ok(Key { algorithm, bits })
    } else {
        Err(Refusal::TRAILING_SUBJECT_PUBLIC_KEY_INFO)
    }
}
