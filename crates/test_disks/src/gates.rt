//! What no contract says of a file that grows by appends. Rows by hand over disks in memory show a stop after each
//! call, every image that it may leave, and how many calls of the disk each call makes.

mod faults;
mod openings;
mod scripts;
mod seals;
mod tools;
