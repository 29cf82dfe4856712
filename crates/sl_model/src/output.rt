use sl_base::Items;

/// What a run writes: its first bytes, of which there are at most `sl_base::limits::OUTPUT_BYTES`, and the count of the
/// others.
#[derive(Drop)]
pub struct Output {
    pub bytes: Items<u8>,
    pub lost: u64,
}
