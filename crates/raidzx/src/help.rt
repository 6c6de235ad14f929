// What is shown to who asks for help or for the version.

use std::alloc::{AllocError, Global};
use std::fmt::Display;

/// Shows an answer, line by line.
pub fn show_answer<R: Eprint, A: Display>(
    rt: &R,
    alloc: Global,
    answer: &A,
) -> Result<(), AllocError> {
    let text = format!(in alloc; "{answer}")?;
    for line in text.as_str().lines() {
        let _ = eprintln!(rt; "raidzx: {line}");
    }
    Ok(())
}
