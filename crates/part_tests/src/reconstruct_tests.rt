// Blocks and their rows, whole and with columns lost or wrong.
use reconstruct::{
    CheckRefused, DecodeRefused, Pair, Rows, content, decode, decode_checked, encode, suspects,
};
use row_layout::Layout;
use sha2::{Digest, Sha256};
use std::alloc::AllocError;
use width_map::Births;

// Five sectors and not all of the last one, at sector 10, parity 1, width 4.
const LEN: usize = 2500;

fn block() -> [u8; LEN] {
    let mut bytes = [0; LEN];
    for (at, byte) in bytes.iter_mut().enumerate() {
        *byte = (at % 251) as u8;
    }
    bytes
}

#[test]
fn encoded_bytes_are_read_back(rt: HostRuntime) -> Result<(), AllocError> {
    let layout = Layout::of(10, 5, 1, 4);
    let bytes = block();
    let rows = encode(rt.alloc(), &layout, &bytes)?;
    let back = content(rt.alloc(), &layout, &rows, LEN)?;
    assert!(rt; back.as_slice() == bytes.as_slice());
    Ok(())
}

#[test]
fn columns_of_a_small_block(rt: HostRuntime) -> Result<(), AllocError> {
    let layout = Layout::of(0, 1, 2, 6);
    let rows = encode(rt.alloc(), &layout, b"abc")?;
    let mut sector = [0; 512];
    sector[0] = b'a';
    sector[1] = b'b';
    sector[2] = b'c';
    assert!(rt; *rows.column(0, 0) == sector, "P");
    assert!(rt; *rows.column(0, 1) == sector, "Q");
    assert!(rt; *rows.column(0, 2) == sector, "content");
    let mut blank = Rows::blank(rt.alloc(), &layout)?;
    assert!(rt; *blank.column(0, 2) == [0; 512], "blank");
    *blank.column_mut(0, 2) = sector;
    assert!(rt; *blank.column(0, 2) == sector, "written");
    Ok(())
}

// Five sectors, parity 1, width 4: rows of columns 0 to 3 and 0 to 2.
#[test]
fn lost_columns_come_back_or_are_too_many(rt: HostRuntime) -> Result<(), AllocError> {
    let layout = Layout::of(10, 5, 1, 4);
    let bytes = block();
    let mut rows = encode(rt.alloc(), &layout, &bytes)?;
    *rows.column_mut(0, 2) = [0xee; 512];
    *rows.column_mut(1, 2) = [0xee; 512];
    let back = decode(rt.alloc(), &layout, &rows, LEN, &[0b0100, 0b0100]);
    assert!(rt;
        back.is_ok_and(|back| back.as_slice() == bytes.as_slice()),
        "column 2 of both rows"
    );
    let refused = decode(rt.alloc(), &layout, &rows, LEN, &[0b0110, 0b0000]);
    assert!(rt;
        matches!(refused, Err(DecodeRefused::TooFew { row: 0 })),
        "columns 1 and 2 of row 0"
    );
    Ok(())
}

// Width 4 after 3, while the pool is being widened, up to sector 167, and at rest.
#[test]
fn suspects_go_from_the_present_width_down(rt: HostRuntime) -> Result<(), AllocError> {
    let mut births = Births::first(3);
    let widened = suspects(rt.alloc(), &births, 4, 167)?;
    births.add(9);
    let at_rest = suspects(rt.alloc(), &births, 4, 0)?;
    let wanted = [(4, 0), (4, 1), (4, 2), (4, 3), (3, 0), (3, 1), (3, 2)];
    for (pairs, mark_of_4) in [(&widened, 167), (&at_rest, u64::MAX)] {
        assert!(rt; pairs.len() == wanted.len());
        for (pair, (width, device)) in pairs.iter().zip(wanted) {
            let mark = if width == 4 { mark_of_4 } else { u64::MAX };
            assert_eq!(rt;
                *pair,
                Pair {
                    width,
                    device,
                    mark
                }
            );
        }
    }
    Ok(())
}

// At width 4 the device 0 had the sectors 12 and 16, column 2 of both rows.
#[test]
fn a_spoiled_device_is_found_by_the_digest(rt: HostRuntime) -> Result<(), AllocError> {
    let layout = Layout::of(10, 5, 1, 4);
    let bytes = block();
    let digest = Sha256::digest(&bytes);
    let mut rows = encode(rt.alloc(), &layout, &bytes)?;
    *rows.column_mut(0, 2) = [0xee; 512];
    *rows.column_mut(1, 2) = [0xee; 512];
    let pairs = suspects(rt.alloc(), &Births::first(4), 4, 0)?;
    for (lost, pairs, comes_back) in [
        ([0b0100, 0b0100], &pairs[..0], true),
        ([0b0000, 0b0000], &pairs[..0], false),
        ([0b0000, 0b0000], &pairs[1..], false),
        ([0b0000, 0b0000], &pairs[..], true),
        ([0b0010, 0b0000], &pairs[..], false),
    ] {
        let found = decode_checked(rt.alloc(), &layout, &rows, LEN, &lost, &digest, pairs);
        if comes_back {
            assert!(rt;
                found.is_ok_and(|found| found.as_slice() == bytes.as_slice()),
                "{lost:?}"
            );
        } else {
            assert!(rt; matches!(found, Err(CheckRefused::Damaged)), "{lost:?}");
        }
    }
    Ok(())
}

// Row 0 was read at width 4, the others at width 3, so device 1 had the sectors 305, 307 and 310.
#[test]
fn a_device_spoiled_while_the_pool_is_widened_is_found(rt: HostRuntime) -> Result<(), AllocError> {
    let layout = Layout::of(303, 5, 1, 3);
    let bytes = block();
    let digest = Sha256::digest(&bytes);
    let mut rows = encode(rt.alloc(), &layout, &bytes)?;
    *rows.column_mut(0, 2) = [0xee; 512];
    *rows.column_mut(1, 1) = [0xee; 512];
    let births = Births::first(3);
    for (mark, comes_back) in [(306, true), (0, false), (309, false)] {
        let pairs = suspects(rt.alloc(), &births, 4, mark)?;
        let found = decode_checked(rt.alloc(), &layout, &rows, LEN, &[0, 0, 0], &digest, &pairs);
        if comes_back {
            assert!(rt;
                found.is_ok_and(|found| found.as_slice() == bytes.as_slice()),
                "{mark}"
            );
        } else {
            assert!(rt; matches!(found, Err(CheckRefused::Damaged)), "{mark}");
        }
    }
    Ok(())
}
