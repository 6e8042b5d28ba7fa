// What a trace file holds.

use rz_aset::Record;

/// The nodes and edges that a trace file lists, and the number of the profile whose instructions they are: 1 for a file
/// of version 1, else the one that it names.
#[derive(Drop)]
pub struct TraceFile {
    pub profile: u8,
    pub rec: Record,
}
