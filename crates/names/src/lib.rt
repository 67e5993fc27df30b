// Names that a certificate presents.
#![tactic(auto)]

pub mod general;
