/// The column of a node.
pub(crate) fn column_of(node: u32) -> u16 {
    node.min(255) as u16 * 2
}
