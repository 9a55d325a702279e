/// The round from which on a widening keeps the old rows that stay shown, and no others.
pub const KEEPING_ROUND: u32 = 4;

const _: () = prove!(KEEPING_ROUND == 4);
