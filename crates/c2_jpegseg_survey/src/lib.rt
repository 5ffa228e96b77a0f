//! A JPEG file walked once: its C2PA store, and where the packets of another one go in what is left of the file.
//!
//! What a segment, a packet, a store and a refusal are is defined in `c2_spec`, in `Jpeg.Segments`, `Jpeg.Packets` and `Jpeg.Store`; the
//! place of packets and their number in `Jpeg.Places`. What a survey says of these stands in `specs/Surveys.antt`.
#![tactic(auto)]

mod keeping;
mod surveying;
mod walking;

pub use surveying::{PacketPoint, Surveyed, survey};
