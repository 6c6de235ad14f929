// Worked rows of lost columns.
ghost use Rattle.std.specs.Prelude.{◌<◌, ◌≤◌};
ghost use Rattle.gf_solve.specs.Row.{is_masked, count_lost};

use crate::plain_solving::{ROW, plain_parity, solve_one, solve_three, solve_two};
use gf_parity::parity;
use gf_solve::solve;

// A row of three parity and four content columns, each content column of one byte all over.
fn row() -> [[u8; 512]; 7] {
    let content = [[0x01; 512], [0x80; 512], [0x53; 512], [0xff; 512]];
    let mut row = [[0; 512]; 7];
    parity(0, &content, &mut row[0]);
    parity(1, &content, &mut row[1]);
    parity(2, &content, &mut row[2]);
    row[3] = content[0];
    row[4] = content[1];
    row[5] = content[2];
    row[6] = content[3];
    row
}

fn comes_back(lost: u64) -> bool
    requires { count_lost (is_masked lost) 0 7 ≤ 3 }
{
    let was = row();
    let mut columns = was;
    for (at, column) in columns.iter_mut().enumerate() {
        if (lost >> at) & 1 == 1 {
            *column = [0xee; 512];
        }
    }
    solve(3, &mut columns, lost);
    columns == was
}

#[test]
fn up_to_three_lost_columns_come_back(rt: HostRuntime) {
    assert!(rt; comes_back(0b000_0000), "none");
    assert!(rt; comes_back(0b000_0111), "all parities");
    assert!(rt; comes_back(0b000_1000), "one content column, by P");
    assert!(rt; comes_back(0b100_0001), "one content column, by Q");
    assert!(rt; comes_back(0b001_0011), "one content column, by R");
    assert!(rt; comes_back(0b001_1000), "two content columns, by P and Q");
    assert!(rt; comes_back(0b101_0001), "two content columns, by Q and R");
    assert!(rt; comes_back(0b100_1010), "two content columns, by P and R");
    assert!(rt; comes_back(0b101_1000), "three content columns");
}

#[test]
fn the_lowest_parity_that_is_there_tells_the_content(rt: HostRuntime) {
    let was = row();
    let mut columns = was;
    columns[1] = [0x11; 512];
    columns[4] = [0xee; 512];
    solve(3, &mut columns, 0b001_0000);
    assert!(rt; columns[4] == was[4], "the content, by P");
    assert!(rt; columns[1] == [0x11; 512], "Q, which contradicts it");
    columns[4] = [0xee; 512];
    solve(3, &mut columns, 0b001_0001);
    assert!(rt; columns[4] != was[4], "the content, by Q");
}

// A row whose content is 0 but at one place, where each column holds something else.
fn row_with(place: usize) -> [[u8; 512]; ROW]
    requires { place < 512 }
{
    let mut row = [[0; 512]; ROW];
    row[3][place] = 0x53;
    row[4][place] = 0x80;
    row[5][place] = 0xff;
    row[6][place] = 0x01;
    let (parities, content) = row.split_at_mut(3);
    for (which, column) in parities.iter_mut().enumerate() {
        plain_parity(which as u32, content, column);
    }
    row
}

fn one_agrees(place: usize, which: u32, lost: u64) -> bool
    requires place { place < 512 }
    requires which { which < 3 }
    requires lost { count_lost (is_masked lost) 0 ROW ≤ 3 }
{
    let was = row_with(place);
    let mut lanes = was;
    let mut plain = was;
    solve(3, &mut lanes, lost);
    solve_one(&mut plain, which);
    lanes == plain && lanes == was
}

fn two_agree(place: usize, sooner: u32, later: u32, lost: u64) -> bool
    requires place { place < 512 }
    requires order { sooner < later }
    requires later { later < 3 }
    requires lost { count_lost (is_masked lost) 0 ROW ≤ 3 }
{
    let was = row_with(place);
    let mut lanes = was;
    let mut plain = was;
    solve(3, &mut lanes, lost);
    solve_two(&mut plain, sooner, later);
    lanes == plain && lanes == was
}

fn three_agree(place: usize) -> bool
    requires { place < 512 }
{
    let was = row_with(place);
    let mut lanes = was;
    let mut plain = was;
    solve(3, &mut lanes, 0b101_1000);
    solve_three(&mut plain);
    lanes == plain && lanes == was
}

#[test]
fn lanes_solve_what_the_plain_program_solves_at_each_place(rt: HostRuntime) {
    for place in 0..512 {
        assert!(rt; one_agrees(place, 0, 0b000_1000), "by P, place {place}");
        assert!(rt; one_agrees(place, 1, 0b000_1001), "by Q, place {place}");
        assert!(rt; one_agrees(place, 2, 0b000_1011), "by R, place {place}");
        assert!(rt;
            two_agree(place, 0, 1, 0b010_1000),
            "by P and Q, place {place}"
        );
        assert!(rt;
            two_agree(place, 0, 2, 0b010_1010),
            "by P and R, place {place}"
        );
        assert!(rt;
            two_agree(place, 1, 2, 0b010_1001),
            "by Q and R, place {place}"
        );
        assert!(rt; three_agree(place), "by all three, place {place}");
    }
}
