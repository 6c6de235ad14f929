// When two uberblocks are of one group of one pool.
ghost use Rattle.std.specs.Prelude.{◌≡◌, ◌↔◌, IsTrue};
ghost use Rattle.uberblock_ring.specs.Valid.{AreAlike};

use crate::uber::Uber;

/// Whether two uberblocks differ in nothing but their out sets.
pub fn are_alike(one: &Uber, other: &Uber) -> bool
    ensures { IsTrue result ↔ AreAlike one.now other.now }
{
    if one.pool() != other.pool() || one.group() != other.group() {
        return false;
    }
    have_same_page(one, other) && have_same_widths(one, other)
}

fn have_same_page(one: &Uber, other: &Uber) -> bool
    ensures { IsTrue result ↔ ((one.now.area ≡ other.now.area)
        × (one.now.count ≡ other.now.count) × (one.now.digest ≡ other.now.digest)) }
{
    one.area() == other.area() && one.count() == other.count() && one.digest() == other.digest()
}

fn have_same_widths(one: &Uber, other: &Uber) -> bool
    ensures { IsTrue result ↔ ((one.now.parity ≡ other.now.parity)
        × (one.now.reflow ≡ other.now.reflow) × (one.now.births ≡ other.now.births)) }
{
    if one.parity() != other.parity() {
        return false;
    }
    have_same_reflow(one, other) && one.births().is_same(other.births())
}

fn have_same_reflow(one: &Uber, other: &Uber) -> bool
    ensures { IsTrue result ↔ (one.now.reflow ≡ other.now.reflow) }
{
    one.reflow() == other.reflow()
}
