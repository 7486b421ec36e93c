//! The check of a certificate's limits.
ghost use Rattle.std.specs.Prelude.{◌≡◌, ◌||◌, ◌++◌};
ghost use Rattle.certificates.specs.Limits.{circuit_sound, sites_sound, metres_sound, links_sound, route_sound, among, none_twice, routes_sound, within};
ghost use Rattle.certificates.specs.Scanning.{fronts_once};
ghost use Rattle.certificates.specs.Certificates.{fields_of};

use crate::fields::CertificateFields;

/// The highest number of a circuit, and so the number of circuits.
pub const LAST_CIRCUIT: u8 = 32;
/// The most links of one route.
pub const MOST_LINKS: usize = 255;
// The number of sites.
const SITES: u16 = 256;
// The most metres of two routes.
const MOST_METRES: u32 = 510_000_000;
// The number of links.
const LINKS: u16 = 2048;

// Whether this is a circuit's number.
fn is_circuit(circuit: u16) -> bool
    ensures { result ≡ circuit_sound circuit }
{
    1 <= circuit && circuit <= u16::from(LAST_CIRCUIT)
}

// Whether these are two different sites.
fn are_sites(root: u16, target: u16) -> bool
    ensures { result ≡ sites_sound root target }
{
    root < SITES && target < SITES && root != target
}

// Whether metres and pole metres are within their limits.
fn are_metres(metres: u32, poles: u32) -> bool
    ensures { result ≡ metres_sound metres poles }
{
    2 <= metres && metres <= MOST_METRES && poles <= metres
}

// Whether each link is below the number of links.
fn are_links(route: &[u16]) -> bool
    ensures { result ≡ links_sound route.now }
{
    route.iter().all(|link| *link < LINKS)
}

// Whether a route by itself is within the limits.
fn is_route(route: &[u16]) -> bool
    ensures { result ≡ route_sound route.now }
{
    1 <= route.len() && route.len() <= MOST_LINKS && are_links(route)
}

// Whether no link of the front stands again after its place, in the front or in the back.
fn are_once(front: &[u16], back: &[u16]) -> bool
    ensures { result ≡ fronts_once front.now back.now }
{
    let mut rest = front;
    while let Some((link, behind)) = rest.split_first() {
        if behind.contains(link) || back.contains(link) {
            return false;
        }
        rest = behind;
    }
    true
}

// Whether no link stands twice in the two routes together.
#[tactic(auto, using(crate::proofs::Scans::both))]
fn are_apart(one: &[u16], two: &[u16]) -> bool
    ensures { result ≡ none_twice (one.now ++ two.now) }
{
    are_once(one, two) && are_once(two, &[])
}

// Whether both routes are within the limits, with no link twice in the two together.
fn are_routes(one: &[u16], two: &[u16]) -> bool
    ensures { result ≡ routes_sound one.now two.now }
{
    is_route(one) && is_route(two) && are_apart(one, two)
}

impl CertificateFields {
    /// Whether every field is within its limits.
    pub fn are_within(&self) -> bool
        ensures { result ≡ within (fields_of self.now) }
    {
        is_circuit(self.circuit)
            && are_sites(self.root, self.target)
            && are_metres(self.metres, self.poles)
            && are_routes(self.one.as_slice(), self.two.as_slice())
    }
}
