//! Cases of what only a call shows: names, sizes and sketches of images, and the calls that no packet makes. Also the
//! ends of a port, steps at an exchange, and clients on threads. Also readers and writers that fail in mid-stream, and
//! refused growths of memory.
//!
//! A case is a text, and one function runs its rows. Each test is proved too, and a text costs the prover nothing.
#![tactic(auto)]

// Rows and their values.
#[cfg(test)]
mod fixtures;
#[cfg(test)]
mod rows;
#[cfg(test)]
mod spoken;

// Calls of lower crates, and the volumes that they work on.
#[cfg(test)]
mod calls;
#[cfg(test)]
mod drawn;
#[cfg(test)]
mod files;
#[cfg(test)]
mod images;
#[cfg(test)]
mod marks;
#[cfg(test)]
mod names;

// A port with all its ends in one value, and what is left of it.
#[cfg(test)]
mod ends_tests;
#[cfg(test)]
mod hand;
#[cfg(test)]
mod left;
#[cfg(test)]
mod playing;

// Steps at an exchange over an image.
#[cfg(test)]
mod steps;
#[cfg(test)]
mod steps_tests;

// Clients, each on its own thread.
#[cfg(test)]
mod gates;
#[cfg(test)]
mod placed;
#[cfg(test)]
mod putter;
#[cfg(test)]
mod racing;
#[cfg(test)]
mod racing_tests;
#[cfg(test)]
mod share;
#[cfg(test)]
mod staging;
#[cfg(test)]
mod threads_tests;

// Readers and writers that fail.
#[cfg(test)]
mod streams;
#[cfg(test)]
mod streams_tests;

// Refused growths.
#[cfg(test)]
mod desk;
#[cfg(test)]
mod growths;
