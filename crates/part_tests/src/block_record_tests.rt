// Pages as they stand on a device.
use block_record::{IndexRefused, encode_index, index_sector, page_sectors, read_index};
use std::test::Fail;

/// SHA-256 of the bytes `abc`, of FIPS 180-4.
const DIGEST_OF_ABC: [u8; 32] = [
    0xba, 0x78, 0x16, 0xbf, 0x8f, 0x01, 0xcf, 0xea, 0x41, 0x41, 0x40, 0xde, 0x5d, 0xae, 0x22, 0x23,
    0xb0, 0x03, 0x61, 0xa3, 0x96, 0x17, 0x7a, 0x9c, 0xb4, 0x10, 0xff, 0x61, 0xf2, 0x00, 0x15, 0xad,
];

/// The page of block 7, the bytes `abc` at sector 0, born in group 4.
fn page_of_seven() -> [u8; 512] {
    let mut page = [0; 512];
    page[7] = 7;
    page[19] = 3;
    page[27] = 4;
    page[28..60].copy_from_slice(&DIGEST_OF_ABC);
    page
}

#[test]
fn the_entry_of_block_seven(rt: HostRuntime) -> Result<(), Fail> {
    let page = page_of_seven();
    let entries = read_index(rt.alloc(), &page, 1)?;
    assert_eq!(rt; entries.len(), 1);
    assert_eq!(rt; (entries[0].id, entries[0].start), (7, 0));
    assert_eq!(rt; (entries[0].len, entries[0].birth), (3, 4));
    assert_eq!(rt; entries[0].digest, DIGEST_OF_ABC);
    let written = encode_index(rt.alloc(), &entries)?;
    assert_eq!(rt; written.as_slice(), page.as_slice());
    assert_eq!(rt; index_sector(&entries, 0), page);
    Ok(())
}

#[test]
fn an_empty_index_has_no_page(rt: HostRuntime) -> Result<(), Fail> {
    let entries = read_index(rt.alloc(), &[], 0)?;
    assert!(rt; entries.is_empty());
    assert_eq!(rt; encode_index(rt.alloc(), &entries)?.len(), 0);
    for (count, sectors) in [(0, 0), (1, 1), (8, 1), (9, 2), (512, 64)] {
        assert_eq!(rt; page_sectors(count), sectors, "of {count} entries");
    }
    Ok(())
}

#[test]
fn a_page_is_refused_at_its_first_wrong_byte(rt: HostRuntime) -> Result<(), Fail> {
    // (place, what stands there in place of what should, where the page then goes wrong)
    let changes = [
        (17, 2, 0), // a length above 65,536
        (19, 0, 0), // a length of 0
        (27, 0, 0), // no birth
        (63, 1, 0), // the four zeros
        (71, 7, 64), // a second block 7
        (71, 6, 64), // a block 6 behind it
        (91, 0, 64), // a second entry with no birth
        (128, 9, 128), // behind the entries
        (511, 9, 511),
    ];
    for (place, byte, at) in changes {
        let mut page = page_of_seven();
        page[71] = 8;
        page[83] = 1;
        page[91] = 4;
        assert!(rt; read_index(rt.alloc(), &page, 2).is_ok());
        page[place] = byte;
        let refused = Err(IndexRefused::BadIndex { at });
        assert_eq!(rt;
            read_index(rt.alloc(), &page, 2).map(|_entries| ()),
            refused,
            "at {place}"
        );
    }
    Ok(())
}
