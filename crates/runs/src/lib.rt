// Laws only: this crate has no code.
#![tactic(auto)]
