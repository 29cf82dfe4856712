/// Whether the keys are known to ascend.
#[derive(Clone, Copy)]
pub enum Sorted {
    Yes,
    Unknown,
}
