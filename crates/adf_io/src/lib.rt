//! Input from readers and output to writers: input read to its end or to a bound, output as far as it is accepted, and
//! images.
#![tactic(auto)]

mod input;
mod load;
mod output;
mod part;
mod printing;
mod store;

pub use input::{Input, InputFault, read_bounded, read_counted, read_input};
pub use load::{
    Filled, LoadFault, Loaded, load_filled, load_front, load_image, load_image_with_room,
};
pub use output::{StoreFault, write_output};
pub use part::read_some;
pub use printing::{PrintFault, write_text, write_when_long};
pub use store::store_image;
