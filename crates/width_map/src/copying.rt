// How far a copy may go.
ghost use Rattle.std.specs.Prelude.{◌≡◌, ◌≢◌, ℕ, ◌+◌, ◌<◌, ◌^◌};
ghost use Rattle.width_map.specs.Place.{place_of, limit_of};

/// How far the copier may go before the next commit, in sectors.
///
/// A stop now reopens at `mark`, and then each row that ends above it is read at its old place.
#[tactic(auto, using(crate::proofs::CopyLimit::copied_apart))]
pub fn limit(width: u32, mark: u64) -> u64
    requires some { 0 < width }
    requires fits { mark < 2 ^ 54 }
    ensures value { result ≡ limit_of width mark }

    // A copied sector never lands on one that is still read.
    ensures apart { (copied kept : ℕ) → copied < result → mark < kept + width
        → place_of (width + 1) copied ≢ place_of width kept }
{
    let width = u64::from(width);
    (mark + mark / width).saturating_sub(width)
}
