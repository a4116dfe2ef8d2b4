// The tag's session: a profile, what ranges, and the calls that alter it.
#![tactic(auto)]

mod calls;
mod configuration;
mod profile;
mod replies;
mod settings;
mod state;
mod stop;
mod within;

pub use calls::{advertise, message, start};
pub use state::{Answer, NanState, Profile, RssiState, Session, Started, Step, UwbState};
