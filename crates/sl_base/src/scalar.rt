/// The type of a number: `int`, `bool`, `std::size_t`, `std::ptrdiff_t`.
#[derive(Clone, Copy)]
pub enum Scalar {
    Int,
    Bool,
    Size,
    Diff,
}
