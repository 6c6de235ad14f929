// Worked rows of layouts.
use row_layout::{Column, Holder, Layout, Part};

// Five sectors at sector 10, parity 1, width 4.
#[test]
fn content_goes_down_the_columns(rt: HostRuntime) {
    let layout = Layout::of(10, 5, 1, 4);
    assert_eq!(rt; (layout.rows(), layout.cols()), (2, 4));
    assert_eq!(rt; (layout.total(), layout.alloc_size()), (7, 8));
    assert_eq!(rt; (layout.end_of(0), layout.end_of(1)), (14, 17));
    let wanted = [
        (0, 0, 10, Part::Parity(0)),
        (0, 1, 11, Part::Content(0)),
        (0, 2, 12, Part::Content(2)),
        (0, 3, 13, Part::Content(4)),
        (1, 0, 14, Part::Parity(0)),
        (1, 1, 15, Part::Content(1)),
        (1, 2, 16, Part::Content(3)),
        (1, 3, 17, Part::Missing),
    ];
    assert_eq!(rt; layout.holder(3), Holder { row: 1, column: 2 });
    assert_eq!(rt; layout.holder(4), Holder { row: 0, column: 3 });
    for (row, column, sector, part) in wanted {
        assert!(rt;
            row < layout.rows() && column < layout.cols(),
            "row {row} column {column}"
        );
        let found = layout.column(row, column);
        assert_eq!(rt; found, Column { sector, part });
    }
}

// One sector, parity 2, width 6.
#[test]
fn a_small_block_has_a_narrow_row(rt: HostRuntime) {
    let layout = Layout::of(0, 1, 2, 6);
    assert_eq!(rt;
        (layout.rows(), layout.cols(), layout.columns_in(0)),
        (1, 3, 3)
    );
    assert_eq!(rt; (layout.total(), layout.alloc_size()), (3, 3));
}
