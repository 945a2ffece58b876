// What a planner's code does with a delivery.
use carriers::Carrier;
use flight::{Flight, Slip};
use matter::Matter;
use refusals::Fault;
use votes::Delivery;

// Collects the delivery, and books it at the buffer's start. Whoever asks gets the slip back where the line finds no room.
pub(crate) fn book_first<C: Carrier, M: Matter + Drop>(
    flight: &mut Flight<C, M>,
    delivery: &Delivery,
    buffer: &mut [u8],
) -> Result<Result<(), (Slip, Fault)>, Fault> {
    let slip = flight.collect(delivery.craft, delivery.origin, delivery.number)?;
    Ok(flight.book(slip, buffer, 0))
}
