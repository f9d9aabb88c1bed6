//! Worked examples of what a station says: the player and its policy, its status in Prometheus' text format, and the
//! lines of its log.
#![tactic(auto)]

#[cfg(test)]
mod log;
#[cfg(test)]
mod metrics;
#[cfg(test)]
mod player;
#[cfg(test)]
mod status;
