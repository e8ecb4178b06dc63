//! The data blocks that header and extension blocks name, summed up.

/// What is known of the data blocks in the pointers of header and extension blocks.
#[derive(Clone, Copy)]
pub(crate) struct DataSummary {
    /// How many they are.
    pub(crate) count: u64,
    /// In OFS the number of bytes that they hold, if all are inside the image.
    pub(crate) held: Option<u64>,
    /// In OFS the first of them.
    pub(crate) first: Option<u32>,
}

/// The summary of no data blocks.
pub(crate) const NO_DATA_BLOCKS: DataSummary = DataSummary {
    count: 0,
    held: Some(0),
    first: None,
};
