//! The C2PA store in the packets of a JPEG file: where it is, where packets go, and how they are written.
//!
//! What a segment, a packet, a store and a refusal are is defined in `c2_spec`, in `Jpeg.Segments`, `Jpeg.Packets` and
//! `Jpeg.Store`; the packets that are written, their place and their number in `Jpeg.Writing` and `Jpeg.Places`.
#![tactic(auto)]

mod laws;
mod numbers;
mod passing;
mod peek;
mod place;
mod search;
mod writing;

pub use c2_jpegseg_segments::{
    a_located_file_is_segments, each_file_is_located, place_and_number_are_one,
    segments_end_or_fail, store_bytes_are_of_the_file,
};
pub use laws::packets_hold_the_store;
pub use numbers::free_number;
pub use place::insert_place;
pub use search::locate;
pub use writing::{segments_len, write_segments};
