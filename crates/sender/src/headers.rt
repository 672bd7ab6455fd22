// Which headers are due in a packet, and how long they are.
ghost use Rattle.std.specs.Prelude.{◌≡◌, ◌+◌, ◌≤◌, length};
ghost use Rattle.wire.specs.Kind.{are_present, restarts_of};
ghost use Rattle.wire.specs.Rtp.{fixed_end};
ghost use Rattle.wire.specs.Tables.{table_header_due};
ghost use Rattle.sender.specs.Packet.{jpeg_headers, not_by_intervals, restart_header, table_header};

use crate::Picture;
use wire::{Header, Restarts, TableSource};

// Where the restart header stands: behind the RTP header and the main JPEG header, which every packet has.
pub(crate) const RESTART_AT: usize = 20;

pub(crate) fn has_restart(header: Header) -> bool
    ensures { result ≡ are_present (restarts_of header.kind) }
{
    wire::restarts_of(header.kind) == Restarts::Present
}

#[tactic(auto, unfolding(crate::specs::Packet::restart_header, laws::specs::Spelled::spelled))]
pub(crate) fn restart_length(header: Header) -> usize
    ensures { result ≡ length (restart_header header not_by_intervals) }
{
    if has_restart(header) { 4 } else { 0 }
}

pub(crate) fn has_table_header(header: Header, offset: u32) -> bool
    ensures { result ≡ table_header_due offset header.q }
{
    offset == 0
        && matches!(
            wire::table_source(header.q),
            TableSource::KeptOrBrought | TableSource::AlwaysBrought
        )
}

impl Picture<'_> {
    // The length of all headers at an offset.
    #[tactic(auto, using(crate::specs::Packet::length_headers, crate::specs::Packet::restart_small, crate::specs::Packet::tables_small))]
    pub(crate) fn headers_length(self, offset: u32) -> usize
        ensures { result ≡ fixed_end + length (jpeg_headers self.entry.header self.entry.tables.now offset) }
    {
        RESTART_AT + restart_length(self.header) + self.tables_length(offset)
    }

    // What the table header and the tables take of a packet.
    #[tactic(auto, unfolding(crate::specs::Packet::table_header, laws::specs::Spelled::spelled))]
    pub(crate) fn tables_length(self, offset: u32) -> usize
        ensures { result ≡ length (table_header self.entry.header self.entry.tables.now offset) }
    {
        if has_table_header(self.header, offset) {
            4 + self.tables.len()
        } else {
            0
        }
    }
}
