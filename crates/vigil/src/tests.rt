//! What the program does with what it is given.

mod given;
