//! A workload: phases of lines, lane by lane.
use gor_model::Bytes;
use std::alloc::{AllocError, Global};
use std::marker::Model;

/// The names of a merge, in the order of its line. Contracts see the list of their bytes.
#[derive(Drop)]
pub struct Names {
    items: Vec<Bytes>,
}

impl Model for Names {
    ghost use Rattle.std.specs.Prelude.{List, ℕ};

    ghost Value = { List (List ℕ) };

    ghost view = { λ n. n.items.items };
}

impl Names {
    ghost use Rattle.std.specs.Prelude.{◌≡◌, [], ◌∷◌, ◌++◌, length, OnOk};

    /// No names. It takes no memory.
    pub fn new(alloc: Global) -> Names
        ensures { result ≡ [] }
    {
        Names {
            items: Vec::new(alloc),
        }
    }

    /// The names in order.
    pub fn as_slice(&self) -> &[Bytes]
        ensures { result.now ≡ self.now }
    {
        &self.items
    }

    /// Adds a name at the end.
    pub fn push(&mut self, name: Bytes) -> Result<(), AllocError>
        ensures { OnOk result (self.new ≡ self.old ++ name ∷ []) }
    {
        self.items.push(name)?;
        Ok(())
    }
}

/// What one line of a lane asks for. Names are words of the grammar: whether one is a name is decided when its line is run.
#[derive(Drop)]
pub enum Line {
    /// `put NAME TIME WORD`
    Put { name: Bytes, time: u64, word: u64 },
    /// `get NAME FROM TO`, both times included.
    Get { name: Bytes, from: u64, to: u64 },
    /// `del NAME`
    Del { name: Bytes },
    /// `flush SHARD`
    Flush { shard: u64 },
    /// `finish SHARD WINDOW`
    Finish { shard: u64, window: u64 },
    /// `merge FROM TO NAME ..` with 1 to 16 names.
    Merge { from: u64, to: u64, names: Names },
}

/// What one line of a workload says.
#[derive(Drop)]
pub enum Item {
    /// An empty line, or one that begins with `#`.
    Skipped,
    /// `join`, which ends a phase.
    Joined,
    /// `LANE` and what it asks for; lanes are 0 to 7.
    OnLane { lane: u32, line: Line },
}

/// The lines of each of the eight lanes up to a `join` or to the end of the workload.
#[derive(Drop)]
pub struct Phase {
    pub lanes: Vec<Vec<Line>>,
}

impl Phase {
    ghost use Rattle.std.specs.Prelude.{◌≡◌, ◌<◌, length, IfOk, OnOk};
    ghost use Rattle.gor_text.specs.Workloads.{empty_lanes, phase_lines, behind_lane};

    /// Eight lanes with no line.
    pub fn new(alloc: Global) -> Result<Phase, AllocError>
        ensures { IfOk result (λ phase. phase_lines phase ≡ empty_lanes) }
    {
        let mut lanes = Vec::with_capacity(alloc, 8)?;
        for _lane in 0..8u32 {
            lanes.push(Vec::new(alloc))?;
        }
        Ok(Phase { lanes })
    }

    /// Adds a line behind those of its lane.
    pub fn add(&mut self, lane: u32, line: Line) -> Result<(), AllocError>
        requires { lane < length (phase_lines self.old) }
        ensures { OnOk result (phase_lines self.new ≡ behind_lane lane line (phase_lines self.old)) }
    {
        let lines = &mut self.lanes[lane as usize];
        lines.push(line)?;
        Ok(())
    }
}

/// Phases in order: those that `join` ended, and the last.
#[derive(Drop)]
pub struct Workload {
    pub phases: Vec<Phase>,
}
