// The codes of moves: a step of a row, a wait of some ticks. Numbers, no enum: a code comes from C and over the bus as any 16 bits, and
// `step_diagram` and `step_net` speak of each. Code and argument go side by side, as C lends them: with a pair every clause would name its fields.
pub const STEP: u16 = 1;

pub const WAIT: u16 = 2;
