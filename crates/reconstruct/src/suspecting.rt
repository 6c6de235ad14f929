// All pairs that may come under suspicion.

ghost use Rattle.std.specs.Prelude.{◌≡◌, ◌++◌, IfOk, OnOk};
ghost use Rattle.width_map.specs.Births.{last_width};
ghost use Rattle.reconstruct.specs.Suspects.{mark_for, pairs_of_width, suspects_of, AreInside};

use crate::Pair;
use std::alloc::{AllocError, Global};
use width_map::Births;

/// Each device of each width that the pool has had: the present width `to` first, the devices of a
/// width upwards. While the pool is being widened to it, the last of the births is one device less,
/// and rows that end above the mark were read at that width.
pub fn suspects(alloc: Global, births: &Births, to: u32, mark: u64) -> Result<Vec<Pair>, AllocError>
    ensures value { IfOk result (λ pairs. pairs.items ≡ suspects_of births.now to mark) }
    ensures inside { IfOk result (λ pairs. AreInside pairs.items) }
{
    let first = births.as_slice()[0].width;
    let mut pairs = Vec::new(alloc);
    for narrower in (first..to).rev() {
        let width = narrower + 1;
        push_width(&mut pairs, width, mark_for(births, to, mark, width))?;
    }
    push_width(&mut pairs, first, mark_for(births, to, mark, first))?;
    Ok(pairs)
}

fn mark_for(births: &Births, to: u32, mark: u64, width: u32) -> u64
    ensures { result ≡ mark_for births.now to mark width }
{
    if width == to && last_width(births) < to {
        mark
    } else {
        u64::MAX
    }
}

fn last_width(births: &Births) -> u32
    ensures { result ≡ last_width births.now }
{
    let births = births.as_slice();
    births[births.len() - 1].width
}

fn push_width(pairs: &mut Vec<Pair>, width: u32, mark: u64) -> Result<(), AllocError>
    ensures { OnOk result (pairs.new.items ≡ pairs.old.items ++ pairs_of_width mark width width) }
{
    for device in 0..width {
        pairs.push(Pair {
            width,
            device,
            mark,
        })?;
    }
    Ok(())
}
