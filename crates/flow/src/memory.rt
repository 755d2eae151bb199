//! The memory that the solver works in, which its caller lends.

/// Four lists of numbers, each with a place for each node at least.
// Whether they suffice depends on the network, so it is said of both, by `Fits` and `Kept`, and is no invariant of the memory alone.
#[derive(Debug, Drop)]
pub struct Memory<'a> {
    /// At the end above 0 at the nodes that are still reached. The words are the caller's, so 0 stands for
    /// no mark.
    pub mark: &'a mut [u32],
    /// The nodes by their layers, and then those on the path of the search in depth.
    pub queue: &'a mut [u32],
    /// For each node the place of the arc that the search in depth stands at.
    pub cursor: &'a mut [u32],
    /// The arcs of its path.
    pub path: &'a mut [u32],
}
