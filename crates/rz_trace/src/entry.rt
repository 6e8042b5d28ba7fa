// What a line of a trace file says.

/// What a line says: the first line with the version of the file, the profile, a node, an edge from an
/// address to an address, or the last line.
#[derive(Clone, Copy)]
pub enum Entry {
    Begin(u8),
    Profile(u8),
    Node(u64),
    Edge(u64, u64),
    End,
}
