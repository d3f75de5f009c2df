//! What a session's replies show of the solutions of a structure, as laws.
#![tactic(auto)]

ghost use Rattle.session_law.specs.Sessions.{SameRepliesLaw, SessionShownLaw};

/// A law: each number that an admitted reply shows is the amplitude of every solution.
#[tactic(auto, using(crate::proofs::SessionLemmas::shown_law))]
pub fn session_shown()
    ensures { SessionShownLaw }
{
    series_law::job_session();
}

/// A law: tensors with the same entries at indices below dim admit the same replies.
#[tactic(auto, using(crate::proofs::SessionLemmas::same_replies))]
pub fn same_replies()
    ensures { SameRepliesLaw }
{
    airy_math::planned_once();
    airy_math::below_dim();
    series_law::same_tables();
}
