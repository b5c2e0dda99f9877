//! Equal events, messages and settings in memory of their own.
#![tactic(auto)]

mod asks;
mod events;
mod messages;
mod settings;

pub use asks::copy_ask;
pub use events::copy_event;
pub use messages::copy_message;
pub use settings::copy_setting;
