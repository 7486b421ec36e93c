//! Writing a certificate into a lent buffer.
ghost use Rattle.std.specs.Prelude.{◌≡◌, ◌+◌, ◌*◌, ◌≤◌, ◌++◌, length, take, drop};
ghost use Rattle.std.specs.List.{flat_map};
ghost use Rattle.records.specs.Bytes.{le16};
ghost use Rattle.certificates.specs.Calls.{held, Wrote, Only};

use crate::certificate::Certificate;
use crate::faults::CertificateRefusal;
use crate::layout::{HEAD, KIND, NUMBERS};

// Puts some bytes into a buffer at a place, leaves all others, and answers the place behind them.
fn put(buffer: &mut [u8], place: usize, bytes: &[u8]) -> usize
    requires { place + length bytes.now ≤ length buffer.old }
    ensures behind { result ≡ place + length bytes.now }
    ensures written { take result buffer.new ≡ take place buffer.old ++ bytes.now }
    ensures left { drop result buffer.new ≡ drop result buffer.old }
{
    let behind = place + bytes.len();
    buffer[place..behind].copy_from_slice(bytes);
    behind
}

// Puts numbers into a buffer at a place, two bytes each and the low byte first, leaves all other bytes, and answers the place behind them.
fn put_numbers(buffer: &mut [u8], place: usize, numbers: &[u16]) -> usize
    requires { place + 2 * length numbers.now ≤ length buffer.old }
    ensures behind { result ≡ place + 2 * length numbers.now }
    ensures written { take result buffer.new ≡ take place buffer.old ++ flat_map le16 numbers.now }
    ensures left { drop result buffer.new ≡ drop result buffer.old }
{
    let mut behind = place;
    for number in numbers {
        behind = put(buffer, behind, &number.to_le_bytes());
    }
    behind
}

impl Certificate {
    /// Writes the certificate at the front of a buffer, and answers the number of its bytes. A buffer that is too short for them is refused.
    pub fn write(&self, buffer: &mut [u8]) -> Result<usize, CertificateRefusal>
        ensures wrote { Wrote (held self.now) buffer.old result buffer.new }
        ensures only { Only (held self.now) result buffer.new }
    {
        let one = self.one();
        let two = self.two();
        let length = NUMBERS + 2 * (one.len() + two.len());
        if buffer.len() < HEAD + length {
            return Err(CertificateRefusal::BufferTooShort);
        }
        let front = [
            length as u16,
            KIND,
            self.circuit(),
            self.root(),
            self.target(),
        ];
        let counts = [one.len() as u16, two.len() as u16];
        let metres_at = put_numbers(buffer, 0, &front);
        let poles_at = put(buffer, metres_at, &self.metres().to_le_bytes());
        let counts_at = put(buffer, poles_at, &self.poles().to_le_bytes());
        let first = put_numbers(buffer, counts_at, &counts);
        let second = put_numbers(buffer, first, one);
        Ok(put_numbers(buffer, second, two))
    }
}
