//! A certificate, whose fields are within their limits.
ghost use Rattle.std.specs.Prelude.{◌≡◌, true};
ghost use Rattle.certificates.specs.Limits.{within};
ghost use Rattle.certificates.specs.Certificates.{fields_of};

use crate::fields::CertificateFields;

/// A certificate: each value of it can be written.
#[derive(Drop)]
pub struct Certificate {
    pub(crate) fields: CertificateFields,
    ghost limits: { within (fields_of fields) ≡ true },
}
