/// The most packets that are taken for one line.
pub const TAKES_A_LINE: u32 = 20_000;

/// Where the router's packets go. The service's go to 0, and a cell's to its number.
pub const ROUTER: u16 = 1_000;

/// The take numbers below which a line may be done.
pub const MOST_TAKES: u64 = 4_611_686_018_427_387_904;
