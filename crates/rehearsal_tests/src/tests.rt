//! One file a topic; `runs` and `tables` make what the others rehearse.

mod crowds;
mod drills;
mod faults;
mod frames;
mod hostile;
mod runs;
mod tables;
mod workers;
