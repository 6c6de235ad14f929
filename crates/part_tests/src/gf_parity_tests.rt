// Worked rows of parities and products.
ghost use Rattle.std.specs.Prelude.{◌<◌};

use gf_parity::{mul, mul2, parity_p, parity_q, parity_r, plain};

// (content bytes of a row, P, Q, R)
const ROWS: [([u8; 3], u8, u8, u8); 3] = [
    ([0x01, 0x02, 0x04], 0x07, 0x04, 0x1c),
    ([0x00, 0x80, 0x80], 0x00, 0x9d, 0xba),
    ([0x01, 0x02, 0x00], 0x03, 0x00, 0x18),
];

#[test]
fn parities_of_worked_rows(rt: HostRuntime) {
    for (bytes, p, q, r) in ROWS {
        let content = [[bytes[0]; 512], [bytes[1]; 512], [bytes[2]; 512]];
        let mut out = [0xff; 512];
        parity_p(&content, &mut out);
        assert!(rt; out == [p; 512], "P of {bytes:?}");
        parity_q(&content, &mut out);
        assert!(rt; out == [q; 512], "Q of {bytes:?}");
        parity_r(&content, &mut out);
        assert!(rt; out == [r; 512], "R of {bytes:?}");
    }
}

#[test]
fn products_of_bytes(rt: HostRuntime) {
    assert_eq!(rt; (mul2(0x40), mul2(0x80), mul2(0xff)), (0x80, 0x1d, 0xe3));
    assert_eq!(rt;
        (mul(0x80, 0x02), mul(0x53, 0x01), mul(0x00, 0x53)),
        (0x1d, 0x53, 0x00)
    );
    assert_eq!(rt; (mul(0x8e, 0x02), mul(0x02, 0x8e)), (0x01, 0x01));
}

fn agrees(content: &[[u8; 512]]) -> bool {
    let mut lanes = [0xee; 512];
    let mut bytes = [0x11; 512];
    parity_p(content, &mut lanes);
    plain::parity_p(content, &mut bytes);
    let first = lanes == bytes;
    parity_q(content, &mut lanes);
    plain::parity_q(content, &mut bytes);
    let second = lanes == bytes;
    parity_r(content, &mut lanes);
    plain::parity_r(content, &mut bytes);
    first && second && lanes == bytes
}

// Three columns that hold something at one place alone.
fn agrees_at(place: usize) -> bool
    requires { place < 512 }
{
    let mut content = [[0; 512]; 3];
    content[0][place] = 0x53;
    content[1][place] = 0x80;
    content[2][place] = 0xff;
    agrees(&content)
}

#[test]
fn lanes_make_what_the_plain_program_makes_at_each_place(rt: HostRuntime) {
    for place in 0..512 {
        assert!(rt; agrees_at(place), "place {place}");
    }
}

// Up to 16 columns, no two of them alike.
#[test]
fn lanes_make_what_the_plain_program_makes_of_full_rows(rt: HostRuntime) {
    let mut content = [[0; 512]; 16];
    for (at, column) in content.iter_mut().enumerate() {
        for (place, byte) in column.iter_mut().enumerate() {
            *byte = ((place % 251) as u8) ^ (((at % 16) as u8) * 17);
        }
    }
    for columns in 0..17 {
        assert!(rt; agrees(&content[..columns]), "{columns} columns");
    }
}
