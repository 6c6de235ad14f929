// Worked rows of reflows and their words.
use crate::reflows::at_mark;
use reflow_mark::{Reflow, Stand, State};

#[test]
fn a_word_has_the_state_above_the_mark(rt: HostRuntime) {
    let words = [
        (at_mark(0, State::None), 0),
        (at_mark(128, State::Valid), 0x0080_0000_0000_0080),
        (at_mark(128, State::Moved), 0x0100_0000_0000_0080),
        (at_mark(191, State::Moved), 0x0100_0000_0000_00bf),
        (Reflow::at_rest(3, 64), 0),
    ];
    for (reflow, word) in words {
        assert!(rt; reflow.rows <= 65_536 && reflow.is_right());
        assert_eq!(rt; reflow.pack(), word);
        let read = Reflow::unpack(3, reflow.to, 64, word);
        assert_eq!(rt; read, Some(reflow));
    }
}

#[test]
fn a_word_that_no_reflow_has_is_refused(rt: HostRuntime) {
    let words = [
        (4, 0x0180_0000_0000_0080, "a fourth state"),
        (4, 0x0080_0000_0000_0081, "another mark in Valid"),
        (4, 0x0100_0000_0000_007f, "a mark in the scratch area"),
        (4, 0x0100_0000_0000_00c0, "a mark at the end"),
        (4, 0x0000_0000_0000_0001, "a mark in None"),
        (3, 0x0080_0000_0000_0060, "a state without an expansion"),
        (5, 0x0000_0000_0000_0000, "an expansion by two devices"),
    ];
    for (to, word, why) in words {
        assert!(rt; Reflow::unpack(3, to, 64, word).is_none(), "{why}");
    }
}

#[test]
fn a_row_is_judged_by_its_end(rt: HostRuntime) {
    let rows = [
        (State::Moved, 125, Stand::New),
        (State::Valid, 125, Stand::Scratch),
        (State::None, 125, Stand::Old),
        (State::Moved, 126, Stand::Old),
        (State::Valid, 126, Stand::Old),
        (State::Moved, 128, Stand::Old),
        (State::Valid, 128, Stand::Old),
    ];
    for (state, first, wanted) in rows {
        assert!(rt; first < 1 << 54);
        let stand = at_mark(128, state).stands(first, 3);
        assert_eq!(rt; stand, wanted, "in {state:?} from {first}");
    }
}

#[test]
fn an_expansion_moves_the_sectors_of_the_narrower_pool(rt: HostRuntime) {
    let reflow = at_mark(0, State::None);
    assert!(rt; reflow.expands());
    assert!(rt; !Reflow::at_rest(3, 64).expands());
    assert_eq!(rt; (reflow.sectors(), reflow.scratch_end()), (192, 128));
}
