//! What is refused of a certificate, and why bytes are none.
ghost use Rattle.std.specs.Prelude.{◌≡◌, Some};
ghost use Rattle.refusals.specs.Numbers.{rule};
ghost use Rattle.certificates.specs.Faults.{fault_refusal, certificate_refusal};

use refusals::Refusal;
use std::error::Error;
use std::fmt;

/// Why bytes are no certificate: a broken rule, with the record's place where there is one.
#[derive(Clone, Copy, PartialEq, Eq, Debug)]
pub enum CertificateFault {
    CutShort { place: usize },
    WrongShape { place: usize },
    OutsideLimits,
}

/// Why a certificate is not made or not written.
#[derive(Clone, Copy, PartialEq, Eq, Debug)]
pub enum CertificateRefusal {
    BufferTooShort,
    OutsideLimits,
}

/// Its place in the list of all refusals.
impl From<CertificateFault> for Refusal {
    ghost from_gives = { λ fault r. r ≡ fault_refusal fault };

    fn from(fault: CertificateFault) -> Refusal {
        match fault {
            CertificateFault::CutShort { place } => Refusal::CutShort { place },
            CertificateFault::WrongShape { place } => Refusal::WrongShape { place },
            CertificateFault::OutsideLimits => Refusal::FieldOutsideLimits,
        }
    }
}

/// Its place in the list of all refusals.
impl From<CertificateRefusal> for Refusal {
    ghost from_gives = { λ refusal r. r ≡ certificate_refusal refusal };

    fn from(refusal: CertificateRefusal) -> Refusal {
        match refusal {
            CertificateRefusal::BufferTooShort => Refusal::BufferTooShort,
            CertificateRefusal::OutsideLimits => Refusal::FieldOutsideLimits,
        }
    }
}

// An `impl` for each enum: one for whatever converts to a refusal would be one for types of other crates too.
impl fmt::Display for CertificateFault {
    ghost output = { λ fault. Some (rule (fault_refusal fault)) };

    fn fmt<W: fmt::Write>(&self, f: &mut fmt::Formatter<W>) -> fmt::Result {
        f.write_str(Refusal::from(*self).rule())
    }
}

// An `impl` for each enum: one for whatever converts to a refusal would be one for types of other crates too.
impl fmt::Display for CertificateRefusal {
    ghost output = { λ refusal. Some (rule (certificate_refusal refusal)) };

    fn fmt<W: fmt::Write>(&self, f: &mut fmt::Formatter<W>) -> fmt::Result {
        f.write_str(Refusal::from(*self).rule())
    }
}

impl Error for CertificateFault {}

impl Error for CertificateRefusal {}
