#![tactic(auto)]

// No code: this crate shows demand 3 of every sequence of calls to the entries, by what their contracts say.
