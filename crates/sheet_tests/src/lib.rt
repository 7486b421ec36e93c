//! Tests of sheets: every order of the checks, the limits, and a sheet that is written and read again.
#![tactic(auto)]

#[cfg(test)]
mod tests {
    use networks::model::Link;
    use networks::network::Network;
    use records::WriteFault;
    use refusals::{Carried, Refusal};
    use sheet_writing::{SiteName, write};
    use sheets::faults::SheetFault;
    use sheets::reading::read;
    use std::alloc::Global;
    use std::test::Fail;

    // The number of the fault that reading some bytes comes to, and its place; 0 and 0 for a sheet, 255 for want of memory.
    // Plain numbers, so that each case below is one line of bytes, number and place.
    fn told(heap: Global, bytes: &[u8]) -> (u8, usize) {
        let Err(fault) = read(heap, bytes) else {
            return (0, 0);
        };
        let Ok(refusal) = Refusal::try_from(fault) else {
            return (255, 0);
        };
        match refusal.value() {
            Carried::Place(place) => (refusal.number(), place),
            _ => (refusal.number(), 0),
        }
    }

    // Whether reading the bytes comes to this fault at this place.
    fn comes_to(heap: Global, bytes: &[u8], number: u8, place: usize) -> bool {
        told(heap, bytes) == (number, place)
    }

    #[test]
    fn cut_short_and_ends(rt: HostRuntime) {
        let heap = rt.alloc();
        let right = [
            // no byte at all
            comes_to(heap, b"", 1, 0),
            // the first head cut short
            comes_to(heap, b"\x04\0\x01", 1, 0),
            // the first payload cut short
            comes_to(heap, b"\x04\0\x01\0\x02\0\0", 1, 0),
            // one byte after the header
            comes_to(heap, b"\x04\0\x01\0\x02\0\0\0\x01", 1, 8),
            // three bytes after the header, before links are missed
            comes_to(heap, b"\x04\0\x01\0\x02\0\x01\0\x01\x02\x03", 1, 8),
            // a link missing
            comes_to(heap, b"\x04\0\x01\0\x02\0\x01\0", 5, 8),
            // the second link missing
            comes_to(
                heap,
                b"\x04\0\x01\0\x02\0\x02\0\x0e\0\x03\0\0\0\x01\0\x0a\0\0\0\x03\0\0\0\x02\0",
                5,
                26,
            ),
            // a whole sheet without links
            comes_to(heap, b"\x04\0\x01\0\x02\0\0\0", 0, 0),
        ];
        assert_eq!(rt; right, [true; 8]);
    }

    #[test]
    fn shapes(rt: HostRuntime) {
        let heap = rt.alloc();
        let right = [
            // a name of no byte comes first
            comes_to(heap, b"\x02\0\x02\0\0\0", 2, 0),
            // an unknown kind
            comes_to(heap, b"\x04\0\x01\0\x02\0\0\0\0\0\x04\0", 2, 8),
            // a header of 5 bytes
            comes_to(heap, b"\x05\0\x01\0\x02\0\0\0\0", 2, 0),
            // a name of 33 bytes
            comes_to(
                heap,
                b"\x04\0\x01\0\x02\0\0\0#\0\x02\0\0\0nnnnnnnnnnnnnnnnnnnnnnnnnnnnnnnnn",
                2,
                8,
            ),
            // a name of 32 bytes
            comes_to(
                heap,
                b"\x04\0\x01\0\x02\0\0\0\x22\0\x02\0\0\0nnnnnnnnnnnnnnnnnnnnnnnnnnnnnnnn",
                0,
                0,
            ),
            // a link of 13 bytes
            comes_to(
                heap,
                b"\x04\0\x01\0\x02\0\x01\0\x0d\0\x03\0\0\0\x01\0\x0a\0\0\0\x03\0\0\0\x02",
                2,
                8,
            ),
        ];
        assert_eq!(rt; right, [true; 6]);
    }

    #[test]
    fn orders(rt: HostRuntime) {
        let heap = rt.alloc();
        let right = [
            // a name before the header
            comes_to(heap, b"\x03\0\x02\0\0\0a", 3, 0),
            // a link before the header
            comes_to(
                heap,
                b"\x0e\0\x03\0\0\0\x01\0\x0a\0\0\0\x03\0\0\0\x02\0",
                3,
                0,
            ),
            // the same header again
            comes_to(heap, b"\x04\0\x01\0\x02\0\0\0\x04\0\x01\0\x02\0\0\0", 3, 8),
            // a second header outside its limits
            comes_to(heap, b"\x04\0\x01\0\x02\0\0\0\x04\0\x01\0,\x01\0\0", 3, 8),
            // a name after a link
            comes_to(
                heap,
                b"\x04\0\x01\0\x02\0\x01\0\x0e\0\x03\0\0\0\x01\0\x0a\0\0\0\x03\0\0\0\x02\0\x03\0\x02\0\0\0a",
                3,
                26,
            ),
            // a name after a link, with a bad byte
            comes_to(
                heap,
                b"\x04\0\x01\0\x02\0\x01\0\x0e\0\x03\0\0\0\x01\0\x0a\0\0\0\x03\0\0\0\x02\0\x03\0\x02\0\0\0\x07",
                3,
                26,
            ),
            // a site named twice
            comes_to(
                heap,
                b"\x04\0\x01\0\x02\0\0\0\x03\0\x02\0\x01\0a\x03\0\x02\0\x01\0b",
                3,
                15,
            ),
            // a site below the one before
            comes_to(
                heap,
                b"\x04\0\x01\0\x02\0\0\0\x03\0\x02\0\x01\0a\x03\0\x02\0\0\0b",
                3,
                15,
            ),
        ];
        assert_eq!(rt; right, [true; 8]);
    }

    #[test]
    fn header_and_name_limits(rt: HostRuntime) {
        let heap = rt.alloc();
        let right = [
            // 1 site
            comes_to(heap, b"\x04\0\x01\0\x01\0\0\0", 4, 0),
            // 256 sites
            comes_to(heap, b"\x04\0\x01\0\0\x01\0\0", 0, 0),
            // 257 sites
            comes_to(heap, b"\x04\0\x01\0\x01\x01\0\0", 4, 0),
            // 2049 links
            comes_to(heap, b"\x04\0\x01\0\x02\0\x01\x08", 4, 0),
            // a name of no site
            comes_to(heap, b"\x04\0\x01\0\x02\0\0\0\x03\0\x02\0\x02\0a", 4, 8),
            // a byte of 31 in a name
            comes_to(heap, b"\x04\0\x01\0\x02\0\0\0\x04\0\x02\0\0\0a\x1f", 4, 8),
            // bytes of 32 and 126 in a name
            comes_to(heap, b"\x04\0\x01\0\x02\0\0\0\x04\0\x02\0\0\0\x20~", 0, 0),
            // a byte of 127 in a name
            comes_to(heap, b"\x04\0\x01\0\x02\0\0\0\x03\0\x02\0\0\0\x7f", 4, 8),
        ];
        assert_eq!(rt; right, [true; 8]);
    }

    #[test]
    fn link_limits(rt: HostRuntime) {
        let heap = rt.alloc();
        let right = [
            // equal ends
            comes_to(
                heap,
                b"\x04\0\x01\0\x02\0\x01\0\x0e\0\x03\0\x01\0\x01\0\x0a\0\0\0\x03\0\0\0\x02\0",
                4,
                8,
            ),
            // an end that is no site
            comes_to(
                heap,
                b"\x04\0\x01\0\x02\0\x01\0\x0e\0\x03\0\0\0\x02\0\x0a\0\0\0\x03\0\0\0\x02\0",
                4,
                8,
            ),
            // no metre
            comes_to(
                heap,
                b"\x04\0\x01\0\x02\0\x01\0\x0e\0\x03\0\0\0\x01\0\0\0\0\0\0\0\0\0\x02\0",
                4,
                8,
            ),
            // 1000000 metres, all on poles, 255 channels
            comes_to(
                heap,
                b"\x04\0\x01\0\x02\0\x01\0\x0e\0\x03\0\0\0\x01\0@B\x0f\0@B\x0f\0\xff\0",
                0,
                0,
            ),
            // 1000001 metres
            comes_to(
                heap,
                b"\x04\0\x01\0\x02\0\x01\0\x0e\0\x03\0\0\0\x01\0AB\x0f\0\x03\0\0\0\x02\0",
                4,
                8,
            ),
            // more pole metres than metres
            comes_to(
                heap,
                b"\x04\0\x01\0\x02\0\x01\0\x0e\0\x03\0\0\0\x01\0\x0a\0\0\0\x0b\0\0\0\x02\0",
                4,
                8,
            ),
            // no channel
            comes_to(
                heap,
                b"\x04\0\x01\0\x02\0\x01\0\x0e\0\x03\0\0\0\x01\0\x0a\0\0\0\x03\0\0\0\0\0",
                4,
                8,
            ),
            // 256 channels
            comes_to(
                heap,
                b"\x04\0\x01\0\x02\0\x01\0\x0e\0\x03\0\0\0\x01\0\x0a\0\0\0\x03\0\0\0\0\x01",
                4,
                8,
            ),
        ];
        assert_eq!(rt; right, [true; 8]);
    }

    #[test]
    fn links_too_many(rt: HostRuntime) {
        let heap = rt.alloc();
        let right = [
            // a sound link too many
            comes_to(
                heap,
                b"\x04\0\x01\0\x02\0\0\0\x0e\0\x03\0\0\0\x01\0\x0a\0\0\0\x03\0\0\0\x02\0",
                5,
                8,
            ),
            // a link too many and outside its limits
            comes_to(
                heap,
                b"\x04\0\x01\0\x02\0\0\0\x0e\0\x03\0\0\0\x01\0\x0a\0\0\0\x03\0\0\0\0\0",
                4,
                8,
            ),
            // a link too many and of 13 bytes
            comes_to(
                heap,
                b"\x04\0\x01\0\x02\0\0\0\x0d\0\x03\0\0\0\x01\0\x0a\0\0\0\x03\0\0\0\x02",
                2,
                8,
            ),
            // a link too many and cut short
            comes_to(
                heap,
                b"\x04\0\x01\0\x02\0\0\0\x0e\0\x03\0\0\0\x01\0\x0a\0\0\0\x03\0\0\0\x02",
                1,
                8,
            ),
            // the second link too many
            comes_to(
                heap,
                b"\x04\0\x01\0\x02\0\x01\0\x0e\0\x03\0\0\0\x01\0\x0a\0\0\0\x03\0\0\0\x02\0\x0e\0\x03\0\0\0\x01\0\x0a\0\0\0\x03\0\0\0\x02\0",
                5,
                26,
            ),
        ];
        assert_eq!(rt; right, [true; 5]);
    }

    // A sheet is written and read again: the same sites, names and links.
    #[test]
    fn written_and_read(rt: HostRuntime) -> Result<(), Fail> {
        let heap = rt.alloc();
        let names = [
            SiteName {
                site: 0,
                name: b"Aachen",
            },
            SiteName {
                site: 2,
                name: b"Cuxhaven",
            },
        ];
        let link = Link {
            start: 2,
            end: 1,
            metres: 70000,
            poles: 512,
            channels: 255,
            taken: 0,
            lit: true,
        };
        let bytes = write(heap, 3, &names, &[link])?;
        let sheet = read(heap, bytes.as_slice())?;
        assert_eq!(rt; sheet.network.sites(), 3);
        assert_eq!(rt; sheet.network.links(), 1);
        assert_eq!(rt; sheet.network.ends(0)?, (2, 1));
        assert_eq!(rt; sheet.network.lengths(0)?, (70000, 512));
        assert_eq!(rt; sheet.network.channels(0)?, (255, 0));
        assert_eq!(rt; sheet.network.is_lit(0)?, true);
        assert!(rt; sheet.names.name(1).is_none());
        let last = sheet.names.name(2).ok_or("no name")?;
        assert_eq!(rt; last, b"Cuxhaven".as_slice());
        Ok(())
    }

    // A fault prints its rule, or that memory is wanting.
    #[test]
    fn faults_printed(rt: HostRuntime) -> Result<(), Fail> {
        let heap = rt.alloc();
        let fault = read(heap, b"").err().ok_or("a sheet")?;
        let cut_short = fault.to_string(heap)?;
        let out_of_order = SheetFault::OutOfOrder { place: 8 }.to_string(heap)?;
        let wanting = SheetFault::Memory.to_string(heap)?;
        let too_long = WriteFault::TooLong.to_string(heap)?;
        assert_eq!(rt;
            cut_short.as_str(),
            "fewer than 4 bytes are left, or the payload is cut short"
        );
        assert_eq!(rt; out_of_order.as_str(), "the record is out of order");
        assert_eq!(rt; wanting.as_str(), "memory is wanting");
        assert_eq!(rt; too_long.as_str(), "a payload is longer than 65535 bytes");
        Ok(())
    }
}
