/// The most bytes of a line of a script, without its end.
pub const LINE_BYTES: u64 = 1_024;

/// The greatest count that a line may give: of the packets before one is lost (`lose`), of a packet's tag
/// (`repeat`), and of seconds (`wait`). The least is 0.
pub const GREATEST_COUNT: u64 = 4_294_967_295;
