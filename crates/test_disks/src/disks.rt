//! What no contract says of disks: rows by hand, an exhaustive run, refused memory, real files, and raw files that
//! fall short.

mod files;
mod fuses;
mod images;
mod memory;
mod short;
