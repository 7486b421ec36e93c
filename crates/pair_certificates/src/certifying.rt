//! Making the certificate of a circuit's pair of routes.
ghost use Rattle.certificates.specs.Calls.{Made};
ghost use Rattle.pair_certificates.specs.Pairs.{pair_fields};

use arrayvec::ArrayVec;
use certificates::certificate::Certificate;
use certificates::faults::CertificateRefusal;
use certificates::fields::CertificateFields;
use networks::network::Network;
use route_links::add_up;

/// The certificate of a circuit's pair of routes, with their metres and pole metres as the network
/// shows them; a field outside its limits is refused.
pub fn certify<N: Network>(
    network: &N,
    circuit: u16,
    root: u16,
    target: u16,
    one: &[u16],
    two: &[u16],
) -> Result<Certificate, CertificateRefusal>
    ensures { Made (pair_fields (N.Network.meaning network.now) circuit root target one.now two.now) result }
{
    let (Ok(first), Ok(second)) = (ArrayVec::try_from(one), ArrayVec::try_from(two)) else {
        return Err(CertificateRefusal::OutsideLimits);
    };
    let (metres_one, poles_one) = add_up(network, one);
    let (metres_two, poles_two) = add_up(network, two);
    Certificate::new(CertificateFields {
        circuit,
        root,
        target,
        metres: metres_one + metres_two,
        poles: poles_one + poles_two,
        one: first,
        two: second,
    })
}
