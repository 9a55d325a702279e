/// The round from which on a widening forgets each bound that moved.
pub const WIDENING_ROUND: u32 = 4;

/// The round from which on a box that has to be narrowed is empty.
pub const NARROWING_ROUND: u32 = 8;

const _: () = prove!(WIDENING_ROUND == 4 && NARROWING_ROUND == 8);
