//! The blocks that a read takes along, to be decoded once the series is given back.
ghost use Rattle.std.specs.Prelude.{◌≡◌, ◌++◌, filter, OnOk, OnErr, IfOk};
ghost use Rattle.gor_model.specs.Windows.{kept};
ghost use Rattle.gor_model.specs.Answers.{in_range};
ghost use Rattle.gor_cell.specs.Steps.{copied_points};

use gor_block::Block;
use gor_model::Points;
use gor_model::windows::day;
use std::alloc::AllocError;

/// Blocks that were copied for a read, with the floor of that moment. They are decoded by `points`, once the series' lock is
/// given back.
#[derive(Drop)]
pub struct Copied {
    /// Copies of the blocks whose windows meet the range, by rising window.
    pub blocks: Vec<Block>,
    /// The series' floor, in the store's unit.
    pub floor: u64,
    /// The first time of the range.
    pub from: u64,
    /// The last time of the range.
    pub to: u64,
}

/// What a seal gives: copies of the kept blocks of its windows that have a point, by rising window.
#[derive(Drop)]
pub struct SealedBlocks {
    pub blocks: Vec<Block>,
}

impl Copied {
    /// The kept points of the range at the moment of the copy, in order. It answers `AllocError` where memory is wanting.
    #[tactic(auto, using(crate::proofs::Picks::picking_first, crate::proofs::Picks::picking_next, crate::proofs::Picks::picking_last))]
    pub fn points(self) -> Result<Points, AllocError>
        ensures { IfOk result (λ points. points ≡ copied_points self) }
    {
        let mut found = Points::with_room(*self.blocks.allocator(), self.room())?;
        for block in self.blocks.iter() {
            self.add_points(block, &mut found)?;
        }
        Ok(found)
    }

    /// How many points the range has at most: no more than the blocks, and one for each of its times.
    fn room(&self) -> usize {
        let mut count = 0usize;
        for block in self.blocks.iter() {
            count = count.saturating_add(block.count as usize);
        }
        count.min(self.to.saturating_sub(self.from).saturating_add(1) as usize)
    }

    /// Adds the points of a block that are kept and in the range. It decodes no point behind the first that is past the range.
    fn add_points(&self, block: &Block, found: &mut Points) -> Result<(), AllocError>
        ensures { OnOk result (found.new ≡ found.old ++ filter (in_range self.now.from self.now.to) (kept self.now.floor block.now.points)) }
    {
        let first = self.from.max(self.floor.saturating_sub(day()));
        block.add_between(first, self.to, found)?;
        Ok(())
    }
}
