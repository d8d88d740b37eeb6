// The receive engine: its state, its set-up, and the checks in front of a call; the calls themselves
// are in `calls`. No published function asks anything of its caller, and each states its whole result
// by a definition of specs/.
#![tactic(auto)]

mod checks;
mod run_checks;
mod setting_up;
mod types;

pub use checks::numbers_fit;
pub use run_checks::{admit, fits};
pub use setting_up::set_up;
pub use types::{Engine, Outcome, Started};
