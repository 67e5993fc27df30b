// Values in a row, and parts of slices compared.
#![tactic(auto)]

ghost use Rattle.std.specs.Prelude.{◌≡◌};
ghost use Rattle.parts.specs.Model.{count_values, same_parts};

// How many values stand between two places, one after the other and nothing after them.
pub fn count_values(s: &[u8], from: usize, to: usize) -> Option<usize>
    ensures { result ≡ count_values s.now from to }
{
    let mut at = from;
    let mut n: usize = 0;
    while at < to {
        at = der::read_value(s, at, to)?.end;
        n += 1;
    }
    if at == to { Some(n) } else { None }
}

// Whether s[a..b] and t[c..d] hold the same bytes. Places out of order or out of the slice hold none that are the same.
pub fn same(s: &[u8], a: usize, b: usize, t: &[u8], c: usize, d: usize) -> bool
    ensures { result ≡ same_parts s.now a b t.now c d }
{
    if b < a || s.len() < b || d < c || t.len() < d {
        return false;
    }
    if b - a != d - c {
        return false;
    }
    for i in 0..b - a {
        if s[a + i] != t[c + i] {
            return false;
        }
    }
    true
}
