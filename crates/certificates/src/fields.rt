//! The fields of a certificate, before they are checked.

use arrayvec::ArrayVec;

/// The fields of a certificate: the circuit, its two sites, its metres and pole metres, and the
/// links of its two routes. Each route has its room in the value, for the most links of a route.
#[derive(PartialEq, Eq, Debug, Drop)]
pub struct CertificateFields {
    pub circuit: u16,
    pub root: u16,
    pub target: u16,
    pub metres: u32,
    pub poles: u32,
    pub one: ArrayVec<u16, 255>,
    pub two: ArrayVec<u16, 255>,
}
