// A text graph put into the one spacing.
#![tactic(auto)]
