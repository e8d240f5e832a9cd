//! The running workspace: a core and the pen of its history behind one lock, shared by sessions on threads.
//!
//! Each hold of the lock is one call of the core, or a look that adds nothing. A run happens outside of the
//! lock. What a session's pass has seen grows with each of its calls, and has every entry of its own session.
#![tactic(auto)]

mod closing;
mod editing;
mod locked;
mod named;
mod preparing;
mod turns;
mod workspace;

pub use closing::Closed;
pub use named::Named;
pub use preparing::{Prepared, prepare};
pub use workspace::Workspace;

#[cfg(test)]
mod tests;
