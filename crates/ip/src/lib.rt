// IP addresses: whether one lies in a subnet, which is an address and a mask.
#![tactic(auto)]

ghost use Rattle.std.specs.Prelude.{◌≡◌, true, length};
ghost use Rattle.ip.specs.Model.{neither, broken_mask, masked_byte, subnet_from, match_subnet, same_address};

use refusal::Refusal;

// The lengths of an address, and of a subnet: RFC 5280, 4.2.1.6 and 4.2.1.10.
const IPV4: usize = 4;

const IPV6: usize = 16;

const IPV4_SUBNET: usize = 8;

const IPV6_SUBNET: usize = 32;

// A byte of an address beside a subnet's, and the mask's.
#[derive(Clone, Copy)]
pub enum Masked {
    Same,
    Differs,
    Broken,
}

fn neither(n: usize, a: usize, b: usize) -> bool
    ensures { result ≡ neither n a b }
{
    n != a && n != b
}

// Whether a mask byte is other than ones and then zeros, that is, whether 256 - mask does not divide 256; `full` says
// that the mask is ones up to here, and after a byte that is not only zeros may follow.
fn broken_mask(full: bool, mask: u8) -> bool
    ensures { result ≡ broken_mask full mask }
{
    mask != 0 && (!full || 256 % (256 - mask as usize) != 0)
}

// A byte of an address beside a subnet's. A mask byte of ones and then zeros cuts the numbers below 256 into blocks of
// 256 - mask, and the two are to be in one of them.
fn masked_byte(full: bool, mask: u8, x: u8, y: u8) -> Masked
    ensures { result ≡ masked_byte full mask x y }
{
    if broken_mask(full, mask) {
        return Masked::Broken;
    }
    let block = 256 - mask as usize;
    if x as usize / block == y as usize / block {
        return Masked::Same;
    }
    Masked::Differs
}

// Whether an address lies in a subnet. The mask is read only as far as the two agree.
fn in_subnet(p: &[u8], address: &[u8], mask: &[u8]) -> Result<bool, Refusal>
    requires { (length address.now ≡ length p.now) × (length mask.now ≡ length p.now) }
    ensures { result ≡ subnet_from true p.now address.now mask.now }
{
    let mut full = true;
    for (i, m) in mask.iter().enumerate() {
        let byte = *m;
        match masked_byte(full, byte, p[i], address[i]) {
            Masked::Same => full = byte == 255,
            Masked::Differs => return Ok(false),
            Masked::Broken => return Err(Refusal::INVALID_NETWORK_MASK_CONSTRAINT),
        }
    }
    Ok(true)
}

// Whether the presented address p lies in the subnet q of a name constraint.
pub fn match_subnet(p: &[u8], q: &[u8]) -> Result<bool, Refusal>
    ensures { result ≡ match_subnet p.now q.now }
{
    if neither(p.len(), IPV4, IPV6) {
        return Err(Refusal::BAD_DER);
    }
    if neither(q.len(), IPV4_SUBNET, IPV6_SUBNET) {
        return Err(Refusal::INVALID_NETWORK_MASK_CONSTRAINT);
    }
    if q.len() != p.len() * 2 {
        return Ok(false);
    }
    let (address, mask) = q.split_at(p.len());
    in_subnet(p, address, mask)
}

// Whether the presented p is an address, and the one that is looked for.
pub fn same_address(p: &[u8], q: &[u8]) -> bool
    ensures { result ≡ same_address p.now q.now }
{
    !neither(p.len(), IPV4, IPV6) && parts::same(p, 0, p.len(), q, 0, q.len())
}
