//! Asks at a table while it is filled, and the replies that a session gives to its lines.
#![tactic(auto)]

mod answer;
mod asker;
mod growth;
mod laws;
mod lines;
mod parts;
mod replies;
mod session_err;
mod sessions;
#[cfg(test)]
mod tests;

pub use answer::Answer;
pub use asker::Asker;
pub use command_words::Line;
pub use laws::texts_append;
pub use session_err::SessionErr;
pub use sessions::session;
