use crate::typed::Expr;
use sl_base::Items;

/// What is tested.
#[derive(Drop)]
pub enum Cond {
    /// `std::cin >> x >> y`, scalars by their numbers
    Read(Items<u8>),
    /// `!(std::cin >> x >> y)`
    NotRead(Items<u8>),
    /// Whether a number isn't zero.
    Test(Expr),
    /// The condition that a `for` leaves out.
    Always,
}
