//! Access units and the primitive bitstream units (PBUs) in them.
#![tactic(auto)]

mod au_info;
mod body;
mod broken_body;
mod filler;
mod frame;
mod kinds;
mod metadata;
mod pbu;
mod pbus;
mod strict_pass;
mod structure_pass;
mod write;

pub use apv_base::UnitEnd;
pub use au_info::{AuEntry, au_count, au_entry, put_au_info};
pub use filler::put_filler;
pub use kinds::{AU_INFO, FILLER, METADATA, is_frame};
pub use metadata::{metadata_payloads, payload_list, pbu_payloads};
pub use pbu::{Pbu, next_pbu};
pub use pbus::{Pbus, SoundPbu};
pub use strict_pass::strict;
pub use structure_pass::{check_unit, structure};
pub use write::put_pbu_header;

#[cfg(test)]
mod strict_tests;
#[cfg(test)]
mod tests;
