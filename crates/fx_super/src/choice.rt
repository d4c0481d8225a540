ghost use Rattle.std.specs.Prelude.{◌≡◌};
ghost use Rattle.fx_super.specs.Chosen.{choice, block_number, other};

/// One of the two blocks that superblocks stand in.
#[derive(Clone, Copy, Debug, PartialEq, Eq)]
pub enum Which {
    /// Block 0.
    A,
    /// Block 1.
    B,
}

impl Which {
    /// The number of the block.
    pub fn block(self) -> usize
        ensures { result ≡ block_number self }
    {
        match self {
            Which::A => 0,
            Which::B => 1,
        }
    }

    /// The other one.
    pub fn other(self) -> Which
        ensures { result ≡ other self }
    {
        match self {
            Which::A => Which::B,
            Which::B => Which::A,
        }
    }
}

/// Which of two superblocks is chosen, by their generations: the one of greater generation, `A`
/// where they are equal. `None` stands for a block that is no superblock.
pub fn choose(a: Option<u64>, b: Option<u64>) -> Option<Which>
    ensures { result ≡ choice a b }
{
    match (a, b) {
        (None, None) => None,
        (Some(_), None) => Some(Which::A),
        (None, Some(_)) => Some(Which::B),
        (Some(first), Some(second)) => {
            if second <= first {
                Some(Which::A)
            } else {
                Some(Which::B)
            }
        }
    }
}
