// The engine's state as 64-bit words, which a caller in another language keeps between calls.
#![tactic(auto)]

mod loading;
mod saving;
mod types;

pub use loading::load;
pub use saving::save;
pub use types::STATE;
