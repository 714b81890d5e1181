//! The memory that is lent to a drill.
use orders::answer::Answer;
use orders::order::Order;
use sheet::page::Position;

/// Places for orders and answers, space for a listing, and where the listing stands in it.
#[derive(Drop)]
pub struct Memory<'a> {
    /// A sheet with more orders than there are places is refused with 35.
    pub orders: &'a mut [Order],
    /// Fewer places than the sheet has orders are refused with 6.
    pub answers: &'a mut [Answer],
    /// Bytes; a listing that is longer is cut short before the line that does not fit, with 36.
    pub out: &'a mut [u8],
    pub at: &'a mut Position,
}
