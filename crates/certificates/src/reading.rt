//! Reading a certificate from bytes.
ghost use Rattle.std.specs.Prelude.{◌≡◌, ◌/◌, ◌≤◌, ◌==◌, true, length};
ghost use Rattle.certificates.specs.Format.{Fields, certificate_bytes, links_in};
ghost use Rattle.certificates.specs.Limits.{within};
ghost use Rattle.certificates.specs.Calls.{ReadsFields, Reads, Gives};

use crate::certificate::Certificate;
use crate::faults::CertificateFault;
use crate::fields::CertificateFields;
use crate::layout::{KIND, NUMBERS};
use crate::limits::MOST_LINKS;
use arrayvec::ArrayVec;
use records::first_record;

// The links that the bytes of a route write, two bytes each and the low byte first.
// A route has room for 255 of them.
fn read_links(bytes: &[u8]) -> ArrayVec<u16, 255>
    requires { length bytes.now ≤ 510 }
    ensures { result.items ≡ links_in (length bytes.now / 2) bytes.now }
{
    let mut links = ArrayVec::new();
    for pair in bytes.chunks_exact(2) {
        links.push(u16::from_le_bytes([pair[0], pair[1]]));
    }
    links
}

// The fields that a payload writes. A payload of the wrong length is refused, and then one that
// counts more links than a route has.
fn read_fields(payload: &[u8]) -> Result<CertificateFields, CertificateFault>
    ensures { ReadsFields payload.now result }
{
    let Some((numbers, routes)) = payload.split_first_chunk::<NUMBERS>() else {
        return Err(CertificateFault::WrongShape { place: 0 });
    };
    let [a, b, c, d, e, f, g, h, i, j, k, l, m, n, o, p, q, r] = *numbers;
    let count_one = usize::from(u16::from_le_bytes([o, p]));
    let count_two = usize::from(u16::from_le_bytes([q, r]));
    if routes.len() != 2 * count_one + 2 * count_two {
        return Err(CertificateFault::WrongShape { place: 0 });
    }
    if MOST_LINKS < count_one || MOST_LINKS < count_two {
        return Err(CertificateFault::OutsideLimits);
    }
    let (one, two) = routes.split_at(2 * count_one);
    let one = read_links(one);
    let two = read_links(two);
    Ok(CertificateFields {
        circuit: u16::from_le_bytes([a, b]),
        root: u16::from_le_bytes([c, d]),
        target: u16::from_le_bytes([e, f]),
        metres: u32::from_le_bytes([g, h, i, j]),
        poles: u32::from_le_bytes([k, l, m, n]),
        one,
        two,
    })
}

// Whether nothing comes behind a record.
fn is_last(rest: &[u8]) -> bool
    ensures { result ≡ (length rest.now == 0) }
{
    rest.is_empty()
}

// The certificate that bytes write, or the first rule that they break.
fn read_record(bytes: &[u8]) -> Result<Certificate, CertificateFault>
    ensures { Reads bytes.now result }
{
    let Some(head) = first_record(bytes) else {
        return Err(CertificateFault::CutShort { place: 0 });
    };
    if head.kind != KIND || !is_last(head.rest) {
        return Err(CertificateFault::WrongShape { place: 0 });
    }
    let fields = read_fields(head.payload)?;
    Certificate::new(fields).map_err(|_| CertificateFault::OutsideLimits)
}

/// The certificate that bytes write, or why they are none.
#[tactic(auto, using(crate::proofs::Gives::gives))]
pub fn read(bytes: &[u8]) -> Result<Certificate, CertificateFault>
    ensures means { Reads bytes.now result }
    ensures back { (f : Fields) → within f ≡ true → bytes.now ≡ certificate_bytes f → Gives f result }
{
    read_record(bytes)
}
