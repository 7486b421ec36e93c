//! Making a certificate from its fields, and its fields.
ghost use Rattle.std.specs.Prelude.{◌≡◌};
ghost use Rattle.certificates.specs.Certificates.{fields_of};
ghost use Rattle.certificates.specs.Calls.{held, Made};

use crate::certificate::Certificate;
use crate::faults::CertificateRefusal;
use crate::fields::CertificateFields;

impl Certificate {
    /// A certificate of these fields; a field outside its limits is refused.
    pub fn new(fields: CertificateFields) -> Result<Certificate, CertificateRefusal>
        ensures { Made (fields_of fields) result }
    {
        if !fields.are_within() {
            return Err(CertificateRefusal::OutsideLimits);
        }
        Ok(Certificate { fields })
    }

    /// The circuit.
    pub fn circuit(&self) -> u16
        ensures { result ≡ (held self.now).circuit }
    {
        self.fields.circuit
    }

    /// The site that it starts from.
    pub fn root(&self) -> u16
        ensures { result ≡ (held self.now).root }
    {
        self.fields.root
    }

    /// The site that it leads to.
    pub fn target(&self) -> u16
        ensures { result ≡ (held self.now).target }
    {
        self.fields.target
    }

    /// The metres of both routes.
    pub fn metres(&self) -> u32
        ensures { result ≡ (held self.now).metres }
    {
        self.fields.metres
    }

    /// The pole metres of both routes.
    pub fn poles(&self) -> u32
        ensures { result ≡ (held self.now).poles }
    {
        self.fields.poles
    }

    /// The links of the first route.
    pub fn one(&self) -> &[u16]
        ensures { result.now ≡ (held self.now).one }
    {
        self.fields.one.as_slice()
    }

    /// The links of the second route.
    pub fn two(&self) -> &[u16]
        ensures { result.now ≡ (held self.now).two }
    {
        self.fields.two.as_slice()
    }
}
