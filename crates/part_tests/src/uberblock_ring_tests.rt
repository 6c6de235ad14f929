// Uberblocks as they stand on a device, and the choice among those that are shown.
use sha2::{Digest, Sha256};
use uberblock_ring::{DeviceSet, RING_SLOTS, Shown, Uber, choose, slot};

/// SHA-256 of no bytes, of FIPS 180-4.
const DIGEST_OF_NOTHING: [u8; 32] = [
    0xe3, 0xb0, 0xc4, 0x42, 0x98, 0xfc, 0x1c, 0x14, 0x9a, 0xfb, 0xf4, 0xc8, 0x99, 0x6f, 0xb9, 0x24,
    0x27, 0xae, 0x41, 0xe4, 0x64, 0x9b, 0x93, 0x4c, 0xa4, 0x95, 0x99, 0x1b, 0x78, 0x52, 0xb8, 0x55,
];

/// The first uberblock of pool 9, parity 1, over three devices of 64 data rows, on device 2.
fn first_of_pool_nine() -> [u8; 512] {
    let mut bytes = [0; 512];
    bytes[0..8].copy_from_slice(b"RZXPUB01");
    bytes[11] = 1; // the version
    bytes[15] = 2; // the device
    bytes[23] = 9; // the pool
    bytes[31] = 1; // the group
    bytes[35] = 1; // the parity
    bytes[39] = 3; // the present width
    bytes[43] = 3; // the next width
    bytes[47] = 1; // the index area
    bytes[55] = 64; // data rows
    bytes[79] = 1; // births
    bytes[80..112].copy_from_slice(&DIGEST_OF_NOTHING);
    bytes[123] = 3; // the width of the only birth
    signed(&bytes)
}

/// The bytes with the digest that belongs to them.
fn signed(bytes: &[u8; 512]) -> [u8; 512] {
    let mut signed = *bytes;
    let head = &bytes[..480];
    signed[480..512].copy_from_slice(&Sha256::digest(head));
    signed
}

#[test]
fn the_first_uberblock_of_a_pool(rt: HostRuntime) {
    let first = Uber::first(9, 1, 3, 64);
    let bytes = first_of_pool_nine();
    assert_eq!(rt; first.encode(2), bytes);
    assert!(rt; Uber::decode(&bytes, 2, 1) == Some(first));
    assert!(rt; Uber::decode(&bytes, 1, 1).is_none(), "another device");
    assert!(rt; Uber::decode(&bytes, 2, 2).is_none(), "another slot");
    assert!(rt; Uber::decode(&[0; 512], 0, 0).is_none(), "a blank sector");
}

#[test]
fn one_wrong_byte_is_refused(rt: HostRuntime) {
    // (place, what stands there in place of what should, what is wrong)
    let changes = [
        (0, b'X', "the magic"),
        (11, 2, "the version"),
        (15, 3, "the device"),
        (31, 2, "the group, of another slot"),
        (31, 0, "no group"),
        (35, 0, "no parity"),
        (35, 4, "parity 4"),
        (35, 3, "parity 3 over three devices"),
        (39, 2, "a present width that is no birth's"),
        (43, 5, "a next width that is two more"),
        (43, 17, "a next width above 16"),
        (47, 2, "an index area"),
        (55, 63, "too few data rows"),
        (56, 1, "a state of no expansion"),
        (63, 1, "a mark of no expansion"),
        (71, 8, "a device out that is none of the pool"),
        (71, 3, "more devices out than the parity"),
        (74, 3, "too many index entries"),
        (79, 0, "no births"),
        (79, 2, "a second birth"),
        (79, 17, "more births than there is room for"),
        (119, 1, "a first birth that is not of group 0"),
        (123, 4, "a last birth that is not the present width"),
        (130, 1, "an unused birth"),
        (479, 1, "the zeros"),
    ];
    for (place, byte, wrong) in changes {
        assert!(rt; place < 480);
        let mut bytes = first_of_pool_nine();
        bytes[place] = byte;
        assert!(rt;
            Uber::decode(&bytes, 2, 1).is_none(),
            "with another digest: {wrong}"
        );
        assert!(rt;
            Uber::decode(&signed(&bytes), 2, 1).is_none(),
            "with its digest: {wrong}"
        );
    }
}

/// An uberblock of a group over four devices.
fn uber_of_group(group: u64) -> Uber {
    let mut uber = Uber::first(9, 1, 4, 64);
    uber.set_group(group);
    uber
}

#[test]
fn a_torn_commit_is_chosen_where_it_is_shown(rt: HostRuntime) {
    let shown = [
        Shown::new(0, uber_of_group(4), true),
        Shown::new(1, uber_of_group(3), true),
        Shown::new(2, uber_of_group(3), true),
        Shown::new(3, uber_of_group(5), false),
    ];
    let shown = &shown[..];
    let cases = [
        (0, Some((0, 4))),
        (1, Some((1, 3))),
        (2, Some((2, 3))),
        (3, None),
        (4, None),
    ];
    for (first, choice) in cases {
        assert!(rt; first <= shown.len());
        let found = choose(&shown[first..]).map(|best| (best.device(), best.uber().group()));
        assert_eq!(rt; found, choice, "from device {first}");
    }
}

#[test]
fn devices_are_put_into_a_set(rt: HostRuntime) {
    let mut out = DeviceSet::empty();
    assert!(rt; out.is_empty() && out.lowest().is_none());
    for device in [3, 0, 2, 3] {
        out.insert(device);
    }
    assert_eq!(rt; (out.bits(), out.len(), out.lowest()), (13, 3, Some(0)));
    assert!(rt; out.has(3) && !out.has(1) && !out.has(64));
    assert!(rt; out == DeviceSet::from_bits(13));
    for (group, place) in [(1, 1), (4, 4), (36, 4)] {
        assert_eq!(rt; slot(group), place, "of group {group}");
    }
    assert_eq!(rt; RING_SLOTS, 32);
}
