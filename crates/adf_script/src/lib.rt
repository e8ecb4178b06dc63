//! Scripts: lines that put packets to a message port, and a line of text for each reply.
//!
//! A line ends in a line feed. Empty lines and lines that start with `#` are skipped. Each other line is a packet: a word
//! and its fields, each after one space. Client 1 puts the packet, the handler serves it, and the client takes the reply
//! before the next line is read. The form of scripts and of their text is this project's own.
//!
//! Fields are:
//!
//! - `T`: a text in quotes.
//! - `N`: an unsigned decimal number of 32 bits.
//! - `S`: a signed decimal number of 32 bits.
//! - `L`, `H`, `K`: the number of a lock, a handle or a key. It is an `N` or `$k`, the value of reply k. The value is
//!   the reply's handle, else the key of its entry, else its first result.
//!
//! | Lines | |
//! |---|---|
//! | of locks | `locate L S T`, `free L`, `copy L`, `parent L`, `examine L`, `next L K`, `info L`, `same L L` |
//! | of objects and names | `delete L T`, `mkdir L T`, `rename L T L T`, `protect L T N`, `comment L T T`, `date L T N N N`, `rename-disk T` |
//! | of files | `update L T`, `input L T`, `output L T`, `read H N`, `write H T`, `end H`, `seek H S S`, `size H S S` |
//! | others | `die`, `diskinfo`, `other S` |
#![tactic(auto)]

mod call;
pub mod ending;
pub mod fault;
mod fields;
mod forms;
pub mod grammar;
mod hex;
mod input;
mod laws;
mod line_fault;
mod lines;
mod numbers;
mod output;
pub mod packet_lines;
mod packets;
mod pieces;
pub mod runner;
mod signed;
pub mod text;
pub mod values;

pub use ending::ClientEnding;
pub use fault::TryFault;
pub use forms::NumberKind;
pub use grammar::read_line;
pub use input::{LONGEST_SCRIPT, read_script};
pub use laws::lines_are_one_run;
pub use line_fault::{Expected, LineFault};
pub use lines::first_line;
pub use packet_lines::{NextLine, PacketLines};
pub use pieces::split_once;
pub use runner::run_script;
