// Worked rows of the text of a look.
ghost use Rattle.std.specs.Prelude.{None};

use bank_trait::{Failed, Sink};
use pool_status::print_status;
use reflow_mark::{Reflow, State};
use uberblock_ring::{DeviceSet, Uber};
use width_map::{Birth, Births};

// Keeps what it is given, up to `room` bytes, and fails from then on.
#[derive(Drop)]
struct Page {
    bytes: [u8; 256],
    used: usize,
    room: usize,
    faults: u64,
}

impl Page {
    fn with_room(room: usize) -> Page {
        Page {
            bytes: [0; 256],
            used: 0,
            room,
            faults: 0,
        }
    }

    fn text(&self) -> &[u8] {
        self.bytes.get(..self.used).unwrap_or(b"")
    }
}

impl Sink for Page {
    ghost held = { λ page. None };

    ghost faults = { λ page. page.faults };

    fn write(&mut self, piece: &[u8]) -> Result<usize, Failed> {
        let len = piece.len().min(self.room.saturating_sub(self.used));
        let end = self.used.saturating_add(len);
        if len == 0 || self.bytes.len() < end {
            self.faults = self.faults.saturating_add(1);
            return Err(Failed);
        }
        self.bytes[self.used..end].copy_from_slice(&piece[..len]);
        self.used = end;
        Ok(len)
    }
}

/// The devices of a list.
fn devices(list: &[u32]) -> DeviceSet {
    let mut set = DeviceSet::empty();
    for device in list {
        if *device < 64 {
            set.insert(*device);
        }
    }
    set
}

/// Pool 9 with 64 data rows and three blocks.
fn pool_nine(group: u64, reflow: Reflow, births: &[Birth]) -> Uber {
    let mut uber = Uber::first(9, 1, 3, 64);
    uber.set_group(group);
    uber.set_index(0, 3, &[0; 32]);
    if let Some(births) = Births::from_slice(births) {
        uber.set_widths(reflow, births);
    }
    uber
}

/// Pool 9 on its way from three devices to four.
fn on_the_way(mark: u64, state: State) -> Uber {
    let reflow = Reflow {
        from: 3,
        to: 4,
        rows: 64,
        mark,
        state,
    };
    pool_nine(5, reflow, &[Birth { group: 0, width: 3 }])
}

/// Pool 9 after its expansion to four devices, which ended in group 9.
fn widened() -> Uber {
    let births = [
        Birth { group: 0, width: 3 },
        Birth {
            group: 11,
            width: 4,
        },
    ];
    pool_nine(11, Reflow::at_rest(4, 64), &births)
}

#[test]
fn each_state_of_a_pool_has_its_text(rt: HostRuntime) {
    let rows: [(Uber, DeviceSet, &[u8]); 6] = [
        (
            Uber::first(9, 1, 3, 64),
            devices(&[]),
            b"pool 9 parity 1 rows 64 group 1\nwidth 3\nbirths 0:3\nout none\nblocks 0\n",
        ),
        (
            on_the_way(0, State::None),
            devices(&[2]),
            b"pool 9 parity 1 rows 64 group 5\nwidth 3 to 4 mark 0 state none\nbirths 0:3\nout 2\nblocks 3\n",
        ),
        (
            on_the_way(128, State::Valid),
            devices(&[0]),
            b"pool 9 parity 1 rows 64 group 5\nwidth 3 to 4 mark 128 state valid\nbirths 0:3\nout 0\nblocks 3\n",
        ),
        (
            on_the_way(167, State::Moved),
            devices(&[]),
            b"pool 9 parity 1 rows 64 group 5\nwidth 3 to 4 mark 167 state moved\nbirths 0:3\nout none\nblocks 3\n",
        ),
        (
            widened(),
            devices(&[3]),
            b"pool 9 parity 1 rows 64 group 11\nwidth 4\nbirths 0:3 11:4\nout 3\nblocks 3\n",
        ),
        (
            Uber::first(18_446_744_073_709_551_615, 3, 16, 65_536),
            devices(&[15, 0, 10]),
            b"pool 18446744073709551615 parity 3 rows 65536 group 1\nwidth 16\nbirths 0:16\nout 0 10 15\nblocks 0\n",
        ),
    ];
    for (uber, out_devices, wanted) in rows {
        let mut page = Page::with_room(256);
        assert_eq!(rt; print_status(&uber, out_devices, &mut page), Ok(()));
        assert_eq!(rt; page.text(), wanted);
    }
}

#[test]
fn a_full_sink_keeps_a_front_of_the_text(rt: HostRuntime) {
    let mut page = Page::with_room(10);
    assert_eq!(rt;
        print_status(&widened(), devices(&[]), &mut page),
        Err(Failed)
    );
    assert_eq!(rt; page.text(), b"pool 9 par".as_slice());
    assert_eq!(rt; page.faults, 1);
}
