// Transfers in rounds as definitions and laws; it has no code of its own.
#![tactic(auto)]
