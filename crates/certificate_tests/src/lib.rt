//! Tests of certificates: every truncation, every limit, the order of the checks, and a certificate that is written and read again.
#![tactic(auto)]

ghost use Rattle.std.specs.Prelude.{◌≤◌};

#[cfg(test)]
mod tests {
    use arrayvec::{ArrayVec, CapacityError};
    use certificates::certificate::Certificate;
    use certificates::faults::{CertificateFault, CertificateRefusal};
    use certificates::fields::CertificateFields;
    use certificates::reading::read;
    use refusals::{Carried, Refusal};
    use std::alloc::{AllocError, Global};
    use std::test::Fail;

    // Circuit 1 from site 0 to site 5, 800 metres, 230 of them on poles, over the links 0, 2, 5 and 1, 4, 6.
    const EXAMPLE: [u8; 34] = [
        30, 0, 16, 0, 1, 0, 0, 0, 5, 0, 32, 3, 0, 0, 230, 0, 0, 0, 3, 0, 3, 0, 0, 0, 2, 0, 5, 0, 1,
        0, 4, 0, 6, 0,
    ];

    // The number of the refusal that reading some bytes comes to, and the value that comes with it; none for a certificate.
    fn told(bytes: &[u8]) -> Option<(u8, Carried)> {
        let refusal = Refusal::from(read(bytes).err()?);
        Some((refusal.number(), refusal.value()))
    }

    // Whether the bytes read as a certificate.
    fn is_read(bytes: &[u8]) -> bool {
        read(bytes).is_ok()
    }

    // Whether the bytes are refused by this rule of the first two, at the place 0.
    fn is_refused(bytes: &[u8], number: u8) -> bool {
        told(bytes) == Some((number, Carried::Place(0)))
    }

    // Whether a field of the bytes is outside its limits.
    fn is_outside(bytes: &[u8]) -> bool {
        told(bytes) == Some((19, Carried::Nothing))
    }

    // The example with two other bytes at a place.
    fn altered(place: usize, number: u16) -> [u8; 34]
        requires { place ≤ 32 }
    {
        let mut bytes = EXAMPLE;
        bytes[place..place + 2].copy_from_slice(&number.to_le_bytes());
        bytes
    }

    // The example with other metres and pole metres.
    fn measured(metres: u32, poles: u32) -> [u8; 34] {
        let mut bytes = EXAMPLE;
        bytes[10..14].copy_from_slice(&metres.to_le_bytes());
        bytes[14..18].copy_from_slice(&poles.to_le_bytes());
        bytes
    }

    // The example with routes of so many links, of links 0 and 1,000 on.
    fn counted(heap: Global, one: u16, two: u16) -> Result<Vec<u8>, AllocError> {
        let length = one.wrapping_add(two).wrapping_mul(2).wrapping_add(18);
        let mut bytes = Vec::new(heap);
        bytes.extend_from_slice(&length.to_le_bytes())?;
        bytes.extend_from_slice(&EXAMPLE[2..18])?;
        bytes.extend_from_slice(&one.to_le_bytes())?;
        bytes.extend_from_slice(&two.to_le_bytes())?;
        for link in 0..one {
            bytes.extend_from_slice(&link.to_le_bytes())?;
        }
        for link in 1000..two.wrapping_add(1000) {
            bytes.extend_from_slice(&link.to_le_bytes())?;
        }
        Ok(bytes)
    }

    // Whether routes of so many links read as a certificate.
    fn are_read(heap: Global, one: u16, two: u16) -> Result<bool, AllocError> {
        Ok(is_read(counted(heap, one, two)?.as_slice()))
    }

    // Whether routes of so many links are outside the limits.
    fn are_outside(heap: Global, one: u16, two: u16) -> Result<bool, AllocError> {
        Ok(is_outside(counted(heap, one, two)?.as_slice()))
    }

    // The example's fields with other routes.
    fn fields(one: &[u16], two: &[u16]) -> Result<CertificateFields, CapacityError> {
        Ok(CertificateFields {
            circuit: 1,
            root: 0,
            target: 5,
            metres: 800,
            poles: 230,
            one: ArrayVec::try_from(one)?,
            two: ArrayVec::try_from(two)?,
        })
    }

    #[test]
    fn truncations(rt: HostRuntime) {
        let refused = (0..34)
            .filter(|cut| is_refused(&EXAMPLE[0..*cut], 1))
            .count();
        assert_eq!(rt; refused, 34);
        assert!(rt; is_read(&EXAMPLE));
    }

    #[test]
    fn shapes(rt: HostRuntime) {
        let right = [
            // kind 15
            is_refused(&altered(2, 15), 2),
            // a length two bytes short, and so two bytes after the record
            is_refused(&altered(0, 28), 2),
            // one link more counted than there are, in each route
            is_refused(&altered(18, 4), 2),
            is_refused(&altered(20, 4), 2),
            // a payload of 16 bytes
            is_refused(b"\x10\0\x10\0\x01\0\0\0\x05\0\x20\x03\0\0\0\0\0\0\0\0", 2),
            // a byte after the record
            is_refused(
                b"\x16\0\x10\0\x01\0\0\0\x05\0\x20\x03\0\0\0\0\0\0\x01\0\x01\0\0\0\x01\0\0",
                2,
            ),
            // the same without it
            is_read(b"\x16\0\x10\0\x01\0\0\0\x05\0\x20\x03\0\0\0\0\0\0\x01\0\x01\0\0\0\x01\0"),
            // a length two bytes too long, and the bytes for it
            is_refused(
                b"\x18\0\x10\0\x01\0\0\0\x05\0\x20\x03\0\0\0\0\0\0\x01\0\x01\0\0\0\x01\0\0\0",
                2,
            ),
            // counts of 32,768 each, which would wrap to none
            is_refused(
                b"\x12\0\x10\0\x01\0\0\0\x05\0\x20\x03\0\0\0\0\0\0\0\x80\0\x80",
                2,
            ),
            // counts of 0, of the right length
            is_outside(b"\x12\0\x10\0\x01\0\0\0\x05\0\x20\x03\0\0\0\0\0\0\0\0\0\0"),
        ];
        assert_eq!(rt; right, [true; 10]);
    }

    #[test]
    fn within_limits(rt: HostRuntime) {
        let right = [
            is_read(&altered(4, 1)),
            is_read(&altered(4, 32)),
            is_read(&altered(6, 255)),
            is_read(&altered(8, 255)),
            is_read(&measured(2, 2)),
            is_read(&measured(510_000_000, 510_000_000)),
            is_read(&measured(800, 0)),
            is_read(&altered(22, 2047)),
            is_read(&altered(32, 2047)),
        ];
        assert_eq!(rt; right, [true; 9]);
    }

    #[test]
    fn outside_limits(rt: HostRuntime) {
        let right = [
            is_outside(&altered(4, 0)),
            is_outside(&altered(4, 33)),
            is_outside(&altered(6, 256)),
            is_outside(&altered(8, 256)),
            is_outside(&altered(8, 0)),
            is_outside(&measured(1, 0)),
            is_outside(&measured(510_000_001, 0)),
            is_outside(&measured(800, 801)),
            is_outside(&altered(22, 2048)),
            is_outside(&altered(32, 2048)),
            // a link twice in the first route, in the second, and across the two
            is_outside(&altered(22, 5)),
            is_outside(&altered(28, 6)),
            is_outside(&altered(32, 5)),
        ];
        assert_eq!(rt; right, [true; 13]);
    }

    #[test]
    fn counts(rt: HostRuntime) -> Result<(), Fail> {
        let heap = rt.alloc();
        assert!(rt; are_read(heap, 1, 255)?);
        assert!(rt; are_read(heap, 255, 1)?);
        assert!(rt; are_read(heap, 255, 255)?);
        assert!(rt; are_outside(heap, 256, 1)?);
        assert!(rt; are_outside(heap, 1, 256)?);
        assert!(rt; are_outside(heap, 0, 1)?);
        assert!(rt; are_outside(heap, 1, 0)?);
        Ok(())
    }

    #[test]
    fn fields_made(rt: HostRuntime) -> Result<(), Fail> {
        let certificate = Certificate::new(fields(&[0, 2, 5], &[1, 4, 6])?)?;
        let mut buffer = [9u8; 34];
        assert_eq!(rt; certificate.write(&mut buffer)?, 34);
        assert_eq!(rt; buffer, EXAMPLE);
        let Err(refusal) = Certificate::new(fields(&[0, 2, 5], &[1, 4, 5])?) else {
            return Err(Fail::new("a certificate with a link twice"));
        };
        assert_eq!(rt; Refusal::from(refusal).number(), 19);
        Ok(())
    }

    #[test]
    fn fields_read(rt: HostRuntime) -> Result<(), Fail> {
        let certificate = read(&EXAMPLE)?;
        let numbers = [
            certificate.circuit(),
            certificate.root(),
            certificate.target(),
        ];
        assert_eq!(rt; numbers, [1, 0, 5]);
        assert_eq!(rt; [certificate.metres(), certificate.poles()], [800, 230]);
        assert_eq!(rt; certificate.one(), [0u16, 2, 5].as_slice());
        assert_eq!(rt; certificate.two(), [1u16, 4, 6].as_slice());
        Ok(())
    }

    #[test]
    fn written_again(rt: HostRuntime) -> Result<(), Fail> {
        let certificate = read(&EXAMPLE)?;
        let mut buffer = [9u8; 36];
        assert_eq!(rt; certificate.write(&mut buffer)?, 34);
        assert_eq!(rt; &buffer[0..34], &EXAMPLE[0..34]);
        assert_eq!(rt; &buffer[34..36], [9u8, 9].as_slice());
        Ok(())
    }

    #[test]
    fn short_buffer(rt: HostRuntime) -> Result<(), Fail> {
        let certificate = read(&EXAMPLE)?;
        let mut buffer = [9u8; 33];
        let Err(refusal) = certificate.write(&mut buffer) else {
            return Err(Fail::new("a buffer that is too short"));
        };
        assert_eq!(rt; Refusal::from(refusal).number(), 18);
        assert_eq!(rt; buffer, [9; 33]);
        Ok(())
    }

    #[test]
    fn in_words(rt: HostRuntime) -> Result<(), Fail> {
        let heap = rt.alloc();
        let cut_short = format!(in heap; "{}", CertificateFault::CutShort { place: 0 })?;
        assert_eq!(rt;
            cut_short.as_str(),
            "fewer than 4 bytes are left, or the payload is cut short"
        );
        let too_short = format!(in heap; "{}", CertificateRefusal::BufferTooShort)?;
        assert_eq!(rt;
            too_short.as_str(),
            "the buffer is too short for this certificate"
        );
        Ok(())
    }
}
