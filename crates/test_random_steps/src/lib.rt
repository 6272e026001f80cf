//! A test of the pure core that walks: random steps, and what each brings about.
#![tactic(auto)]

#[cfg(test)]
mod walk;
