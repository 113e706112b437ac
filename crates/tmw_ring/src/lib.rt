//! A running ring in which threads record events: words that change in single steps, with what each writer and the
//! reader know of them.
#![tactic(auto)]

mod cell_layout;
mod meet;
mod new_ring;
mod record;
mod refused;
mod ring_ends;
mod room;
mod rule;
mod seat_part;
mod seat_parts;
mod settle;
mod settled;
mod table_change_laws;
mod table_words;
mod take;

pub use new_ring::ring;
pub use refused::Refused;
pub use ring_ends::{Reader, Ring, Writer};
pub use room::law_room_stays;
pub use rule::{RingRule, RingSeat, RingTable};
pub use seat_part::{Made, Part, ReaderPart, WriterPart};
pub use seat_parts::{AllParts, BothParts, SecondPart};
pub use settled::Settled;
pub use table_change_laws::{law_claims, law_runs};
pub use tmw_ring_defs::{RingFault, RingSize};
