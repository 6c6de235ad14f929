// The calls of commits and of an opening's copies, one by one.
use commit_job::{Commit, CommitCall};
use uberblock_ring::DeviceSet;

fn page(device: u32, part: u64) -> CommitCall {
    CommitCall::IndexWrite { device, part }
}

#[test]
fn a_commit_syncs_the_index_before_an_uberblock_names_it(rt: HostRuntime) {
    let mut commit = Commit::new(2, 1);
    let calls = [
        page(0, 0),
        page(1, 0),
        CommitCall::BaseSync { device: 0 },
        CommitCall::BaseSync { device: 1 },
        CommitCall::UberWrite { device: 0 },
        CommitCall::UberWrite { device: 1 },
        CommitCall::UberSync { device: 0 },
        CommitCall::UberSync { device: 1 },
    ];
    for call in calls {
        assert_eq!(rt; commit.next(DeviceSet::empty()), Some(call));
        assert_eq!(rt; commit.advance(DeviceSet::empty()), Some(call));
    }
    assert!(rt; commit.next(DeviceSet::empty()).is_none());
    assert!(rt; commit.advance(DeviceSet::empty()).is_none());
}

#[test]
fn a_device_that_goes_out_is_passed_over(rt: HostRuntime) {
    let mut commit = Commit::new(3, 9);
    let mut out = DeviceSet::empty();
    for call in [page(0, 0), page(0, 1), page(1, 0)] {
        assert_eq!(rt; commit.advance(out), Some(call));
    }
    out.insert(1);
    for call in [page(2, 0), page(2, 1), CommitCall::BaseSync { device: 0 }] {
        assert_eq!(rt; commit.advance(out), Some(call));
    }
    assert_eq!(rt;
        commit.advance(out),
        Some(CommitCall::BaseSync { device: 2 })
    );
    out.insert(0);
    assert_eq!(rt;
        commit.advance(out),
        Some(CommitCall::UberWrite { device: 2 })
    );
    assert_eq!(rt;
        commit.advance(out),
        Some(CommitCall::UberSync { device: 2 })
    );
    assert!(rt; commit.next(out).is_none());
}

#[test]
fn the_second_half_alone_writes_no_index(rt: HostRuntime) {
    let mut commit = Commit::signing(2);
    let calls = [
        CommitCall::UberWrite { device: 0 },
        CommitCall::UberWrite { device: 1 },
        CommitCall::UberSync { device: 0 },
        CommitCall::UberSync { device: 1 },
    ];
    for call in calls {
        assert_eq!(rt; commit.advance(DeviceSet::empty()), Some(call));
    }
    assert!(rt; commit.next(DeviceSet::empty()).is_none());
}

#[test]
fn a_group_is_spread_to_the_devices_that_lack_it(rt: HostRuntime) {
    let (page_lacks, uber_lacks) = (DeviceSet::from_bits(4), DeviceSet::from_bits(6));
    let mut copies = Commit::spread(3, 9, page_lacks, uber_lacks);
    let calls = [
        page(2, 0),
        page(2, 1),
        CommitCall::UberWrite { device: 1 },
        CommitCall::UberWrite { device: 2 },
        CommitCall::UberSync { device: 0 },
        CommitCall::UberSync { device: 1 },
        CommitCall::UberSync { device: 2 },
    ];
    for call in calls {
        assert_eq!(rt; copies.advance(DeviceSet::empty()), Some(call));
    }
    assert!(rt; copies.next(DeviceSet::empty()).is_none());
}
