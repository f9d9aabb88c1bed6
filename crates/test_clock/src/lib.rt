//! Worked examples of times that a person asks for and is told: those of RFC 3339, texts that aren't such, spans, and
//! the hours at which clocks go forward and back.
#![tactic(auto)]

#[cfg(test)]
mod asking;
#[cfg(test)]
mod telling;
