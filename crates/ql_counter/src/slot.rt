/// A part of the block of effects that stands for a class of equal constants.
#[derive(Clone, Copy, PartialEq, Eq)]
pub enum Part {
    /// Before the constant's own effect: what happens before it by a chain over another object ends here.
    Opening,
    /// Before it on its object: sees what happens before it there that it doesn't see itself.
    Aide,
    /// The effect that the constants stand for.
    Own,
    /// After it: a chain over another object begins here.
    Closing,
}

/// An effect of a block, which is named by the least constant of its class.
#[derive(Clone, Copy, PartialEq, Eq)]
pub struct Slot {
    pub block: u32,
    pub part: Part,
}

/// Which parts blocks may have besides their own effects.
#[derive(Clone, Copy, PartialEq, Eq)]
pub struct Extra {
    pub aides: bool,
    pub links: bool,
}
