// Lost columns of a row of three parity and four content columns, by the plain programs of the field:
// what solving by lanes is compared with. The points of the content columns are 8, 4, 2 and 1.
ghost use Rattle.std.specs.Prelude.{◌<◌};

use gf_parity::{add, plain};
use gf_solve::plain::{single_out_one, single_out_three, single_out_two};

pub const ROW: usize = 7;

pub fn plain_parity(which: u32, content: &[[u8; 512]], out: &mut [u8; 512])
    requires { which < 3 }
{
    match which {
        0 => plain::parity_p(content, out),
        1 => plain::parity_q(content, out),
        _ => plain::parity_r(content, out),
    }
}

fn lack(which: u32, row: &[[u8; 512]; ROW]) -> [u8; 512]
    requires { which < 3 }
{
    let mut lack = [0; 512];
    plain_parity(which, &row[3..], &mut lack);
    add(&mut lack, &row[which as usize]);
    lack
}

/// Solves the first content column by the parity of a number.
pub fn solve_one(row: &mut [[u8; 512]; ROW], which: u32)
    requires { which < 3 }
{
    row[3] = [0; 512];
    let mut column = lack(which, row);
    single_out_one(which, 8, &mut column);
    row[3] = column;
}

/// Solves the first and the third by the parities of two numbers.
pub fn solve_two(row: &mut [[u8; 512]; ROW], sooner: u32, later: u32)
    requires order { sooner < later }
    requires later { later < 3 }
{
    row[3] = [0; 512];
    row[5] = [0; 512];
    let mut low = lack(sooner, row);
    let mut high = lack(later, row);
    single_out_two(sooner, later, 8, 2, &mut low, &mut high);
    row[3] = high;
    row[5] = low;
}

/// Solves all but the third.
pub fn solve_three(row: &mut [[u8; 512]; ROW]) {
    row[3] = [0; 512];
    row[4] = [0; 512];
    row[6] = [0; 512];
    let mut p = lack(0, row);
    let mut q = lack(1, row);
    let mut r = lack(2, row);
    single_out_three(8, 4, 1, &mut p, &mut q, &mut r);
    row[3] = r;
    row[4] = q;
    row[6] = p;
}
