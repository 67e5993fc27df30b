// What a request lends: certificates, anchors and distrusted keys by number, and paths of such numbers.
// The candidates have one numbering: the anchors, then the intermediates; every other number is the end entity's.
#![tactic(auto)]

ghost use Rattle.std.specs.Prelude.{◌≡◌, get_or};
ghost use Rattle.rows.specs.Model.{outlined};
ghost use Rattle.lent.specs.Lent.{row_at, listed, each_now, certificates, readings, lent_of};

use cert::Reading;
use refusal::Refusal;
use rows::Outline;

// As many intermediates may stand between the end entity and the anchor.
pub const MOST_INTERMEDIATES: usize = 6;

// The certificates of a request by number, and what was read of them. `anchors` is how many numbers come before the intermediates. The bytes
// may outlive the table and the list ('l) that name them.
#[derive(Clone, Copy)]
pub struct Lent<'l, 'a> {
    pub table: &'l [[usize; 37]],
    pub issuers: &'l [&'a [u8]],
    pub end: &'a [u8],
    pub anchors: usize,
}

// The anchors, in rows beside each other as C lends them. `bound` has their flags: not 0 where an anchor has name constraints.
#[derive(Clone, Copy)]
pub struct Anchors<'a> {
    pub subjects: &'a [&'a [u8]],
    pub keys: &'a [&'a [u8]],
    pub constraints: &'a [&'a [u8]],
    pub bound: &'a [u8],
}

// What each certificate is checked against. `purpose` is an object identifier, and `demanded` says that a certificate must list it.
#[derive(Clone, Copy)]
pub struct Policy<'a> {
    pub distrusted: &'a [&'a [u8]],
    pub time: u64,
    pub purpose: &'a [u8],
    pub demanded: bool,
}

#[derive(Clone, Copy)]
pub struct Request<'l, 'a> {
    pub table: &'l [[usize; 37]],
    pub issuers: &'l [&'a [u8]],
    pub end: &'a [u8],
    pub anchors: Anchors<'l>,
    pub policy: Policy<'l>,
}

impl<'l, 'a> Request<'l, 'a> {
    // The certificates: there are as many anchors as subjects.
    pub fn lent(&self) -> Lent<'l, 'a>
        ensures { result ≡ lent_of self.now }
    {
        Lent {
            table: self.table,
            issuers: self.issuers,
            end: self.end,
            anchors: self.anchors.subjects.len(),
        }
    }
}

impl<'l, 'a> Lent<'l, 'a> {
    // The bytes of the certificate that has a number.
    #[inline(always)]
    pub fn certificate(&self, number: usize) -> &'a [u8]
        ensures { result.now ≡ certificates self.now number }
    {
        if number < self.anchors {
            return self.end;
        }
        self.issuers
            .get(number - self.anchors)
            .copied()
            .unwrap_or(self.end)
    }

    // What is known of it.
    pub fn reading(&self, number: usize) -> Reading
        ensures { result ≡ readings self.now number }
    {
        let row = row_at(self.anchors, self.issuers.len(), number);
        table::reading(self.table, row, self.certificate(number))
    }

    // The outline of it.
    #[inline(always)]
    pub fn outline(&self, number: usize) -> Result<Outline, Refusal>
        ensures { result ≡ outlined (readings self.now number) }
    {
        let row = row_at(self.anchors, self.issuers.len(), number);
        table::outline_at(self.table, row, self.certificate(number))
    }
}

// The row of a number in a table of readings: the place among the intermediates, or the one after them.
#[inline(always)]
fn row_at(anchors: usize, count: usize, number: usize) -> usize
    ensures { result ≡ row_at anchors count number }
{
    if number < anchors {
        return count;
    }
    count.min(number - anchors)
}

// The number at a place of a path.
#[inline(always)]
pub fn number_at(path: [usize; 7], k: usize) -> usize
    ensures { result ≡ get_or path k 0 }
{
    path.get(k).copied().unwrap_or(0)
}

// Whether the bytes between the places are one of the distrusted keys.
pub fn is_distrusted(distrusted: &[&[u8]], s: &[u8], from: usize, to: usize) -> bool
    ensures { result ≡ listed (each_now distrusted.now) s.now from to }
{
    distrusted
        .iter()
        .any(|key| parts::same(s, from, to, key, 0, key.len()))
}
