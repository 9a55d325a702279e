use pc_lower::JOINING_ROUNDS;

/// The round from which on rows that do not show the newer ones become nothing.
pub const LAST_ROUND: u32 = 8;

const _: () = prove!(LAST_ROUND == 8);

const _: () = prove!(LAST_ROUND == JOINING_ROUNDS);
