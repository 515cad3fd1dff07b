//! Where the blocks of what was served lie.

use conn_blocks::Block;
use squeue_pool::Finished;

/// What squeues left that have ended, the block of each connection at its number; or blocks of which no squeue tells.
#[derive(Drop)]
pub(crate) enum Kept {
    Left(Finished<Box<Block>>),
    Made(Vec<Box<Block>>),
}
