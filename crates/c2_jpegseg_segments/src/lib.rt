//! The segments of a JPEG file, one at a time: what a walk over them reads, and how it takes one further.
//!
//! What a segment, a packet, a store and a refusal are is defined in `c2_spec`, in `Jpeg.Segments`, `Jpeg.Packets` and `Jpeg.Store`; the
//! place of packets and their number in `Jpeg.Places`. Here stand the laws of these definitions; what a walk knows at a place stands in
//! `specs/Walks.antt`, and of the segments that it keeps in `specs/Passing.antt`.
#![tactic(auto)]

mod front;
mod laws;
mod loading;
mod marker;
mod numbers;
mod packet;
mod run;
mod segment;
mod window;

pub use front::{Front, grown};
pub use laws::{
    a_located_file_is_segments, each_file_is_located, place_and_number_are_one,
    segments_end_or_fail, store_bytes_are_of_the_file,
};
pub use loading::{is_jpeg, load_packet, packet_at};
pub use marker::{Extent, Next, segment_at};
pub use numbers::{MARKS_LEN, least_free, no_marks, note};
pub use packet::Packet;
pub use run::Run;
pub use segment::step;
pub use window::{Bytes, Window, fill_first};
