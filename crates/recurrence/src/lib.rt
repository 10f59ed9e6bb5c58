// The set of an event: its ids in a window, one after the other.
#![tactic(auto)]
