//! What no contract says of a recorder: rows by hand over disks in memory, and how many calls of the disk each call
//! makes.

mod commands;
mod hostile;
mod openings;
mod scripts;
mod tools;
