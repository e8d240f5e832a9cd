//! Laws of the whole chain that follow from its definitions alone: its bounds are safe, it has at most one outcome, what
//! the features that make it up depend on and tell, that its costs need no may analysis, and that one session leaves the
//! history of a workspace no choice.
//! Implicit path enumeration after Li and Malik 1995; features after OTAWA 2010.
#![tactic(auto)]

mod laws;

pub use laws::{
    Outcomes, chain_is_safe, costs_need_no_may, feature_tells, features_agree, may_flags_exist,
    one_feature, one_front, one_history, one_outcome,
};
