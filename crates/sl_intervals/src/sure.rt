/// Whether something happens for no, some or all members.
#[derive(Clone, Copy)]
pub enum Sure {
    Never,
    May,
    Always,
}
