//! Worked examples of folders, run through the public calls of archive_folder: a folder in memory, a raw folder whose
//! calls fail in turn, and a folder of the system.
#![tactic(auto)]

#[cfg(test)]
mod failing;
#[cfg(test)]
mod memory;
#[cfg(test)]
mod spelling;
#[cfg(test)]
mod system;
