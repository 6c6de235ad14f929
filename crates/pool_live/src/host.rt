// Where a run is carried out.

use std::alloc::Global;

/// What the caller of a run gives it beside the pool and the calls. The threads of the run share it.
#[derive(Drop)]
pub struct Host<'r, 'g, R, G> {
    /// Starts the threads, and lets them wait.
    pub rt: &'r R,
    /// The run's memory is of it.
    pub alloc: Global,
    /// Each thread passes it between its turns.
    pub gate: &'g G,
}
