// Which uberblock a pool is opened with.
ghost use Rattle.std.specs.Prelude.{List, [], ◌∷◌, ◌++◌};
ghost use Rattle.std.specs.Option.{option_copied};
ghost use Rattle.uberblock_ring.specs.Choice.{IsChosenOf, Shown};

use crate::Shown;

/// The candidate with the greatest group, and among equal groups that on the lowest device.
pub fn choose(shown: &[Shown]) -> Option<&Shown>
    ensures chosen { IsChosenOf shown.now (option_copied result) }
{
    let mut choice = None;
    for other in shown {
        choice = better(choice, other);
    }
    choice
}

fn better<'a>(choice: Option<&'a Shown>, other: &'a Shown) -> Option<&'a Shown>
    ensures chosen { (seen : List Shown) → IsChosenOf seen (option_copied choice.entry)
        → IsChosenOf (seen ++ other.entry.now ∷ []) (option_copied result) }
{
    if !other.is_whole() {
        return choice;
    }
    match choice {
        None => Some(other),
        Some(best) => {
            if best.precedes(other) {
                choice
            } else {
                Some(other)
            }
        }
    }
}
