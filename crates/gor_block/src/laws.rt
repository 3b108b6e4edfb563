//! What codes and bytes of blocks determine.
ghost use Rattle.gor_block.specs.Laws.{PointsGiveBits, BitsGivePoints, BlocksGiveBytes, BytesGiveBlocks};

/// What codes and bytes of blocks determine, as clauses: the points their bits; the unit, the window, the count and the bits
/// the points; a block its bytes; and the unit and the bytes a block.
pub fn laws()
    ensures bits { PointsGiveBits }
    ensures points { BitsGivePoints }
    ensures bytes { BlocksGiveBytes }
    ensures block { BytesGiveBlocks }
{}
