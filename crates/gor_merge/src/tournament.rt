//! A tournament of the next points of some lists: which of them comes first, in one match a round.

ghost use Rattle.std.specs.Prelude.{◌≡◌, ℕ, ◌+◌, ◌<◌, ◌≤◌, ◌^◌, length, drop, set, IfOk};
ghost use Rattle.gor_merge.specs.Heads.{IsEarlierOf, Wins};
ghost use Rattle.gor_merge.specs.Rounds.{node_at, IsPlayed, IsOver, IsOverBut, HasNodes};

use gor_model::Merged;
use std::alloc::{AllocError, Global};
use std::marker::Model;

/// The heads of some lists, each the next point of its list or `None` at its end. Contracts see them, by their lists' places.
///
/// They are the second half of the nodes. The node 1 is the root, and below each node `i` of the first half stand the nodes
/// `2 * i` and `2 * i + 1`: it holds the one of their two heads that comes first.
#[derive(Drop)]
pub struct Tournament {
    count: usize,
    nodes: Vec<Option<Merged>>,
}

impl Model for Tournament {
    ghost use Rattle.std.specs.Prelude.{List, drop, Option};
    ghost use Rattle.gor_model.specs.declared.point.Merged.{Merged};
    ghost use Rattle.gor_merge.specs.Rounds.{IsOver};

    ghost Value = { List (Option Merged) };

    ghost view = { λ t. drop t.count t.nodes.items };

    ghost invariant = { λ t. IsOver t.count t.nodes.items };
}

impl Tournament {
    /// The tournament of these heads. It takes a match fewer than there are heads.
    pub fn new(alloc: Global, heads: &[Option<Merged>]) -> Result<Tournament, AllocError>
        requires { length heads.now < 2 ^ 32 }
        ensures { IfOk result (λ tournament. tournament ≡ heads.now) }
    {
        let count = heads.len();
        let mut nodes = Vec::with_capacity(alloc, count + count)?;
        nodes.extend_from_slice(heads)?;
        nodes.extend_from_slice(heads)?;
        play_all(&mut nodes, count);
        Ok(Tournament { count, nodes })
    }

    /// The head that comes first; `None` exactly where each list is at its end.
    pub fn winner(&self) -> Option<Merged>
        ensures { Wins self.now result }
    {
        self.nodes.get(1).copied().flatten()
    }

    /// Puts the next head of a list in the place of the one before. It takes a match for each node above that place, at most
    /// about the logarithm to base 2 of the count of heads.
    pub fn replace(&mut self, place: usize, head: Option<Merged>)
        requires { place < length self.old }
        ensures { self.new ≡ set self.old place head }
    {
        let leaf = self.count + place;
        self.nodes[leaf] = head;
        play_above(&mut self.nodes, self.count, leaf);
    }
}

/// Plays the match of each node of the first half, the last one first.
fn play_all(nodes: &mut [Option<Merged>], count: usize)
    requires nodes { HasNodes count nodes.old }
    ensures over { IsOver count nodes.new }
    ensures heads { drop count nodes.new ≡ drop count nodes.old }
{
    let mut node = count;
    while node > 1 {
        node -= 1;
        play(nodes, node);
    }
}

/// Plays the matches of the nodes above a leaf, up to the root.
fn play_above(nodes: &mut [Option<Merged>], count: usize, leaf: usize)
    requires nodes { HasNodes count nodes.old }
    requires from { count ≤ leaf }
    requires to { leaf < count + count }
    requires others { IsOverBut leaf count nodes.old }
    ensures over { IsOver count nodes.new }
    ensures heads { drop count nodes.new ≡ drop count nodes.old }
{
    let mut node = leaf;
    while node > 1 {
        node /= 2;
        play(nodes, node);
    }
}

/// Plays one match.
fn play(nodes: &mut [Option<Merged>], node: usize)
    requires inner { 1 ≤ node }
    requires below { node + node + 1 < length nodes.old }
    ensures others { nodes.new ≡ set nodes.old node (node_at nodes.new node) }
    ensures played { IsPlayed nodes.new node }
{
    nodes[node] = earlier_of(nodes[node + node], nodes[node + node + 1]);
}

/// The one of two heads that comes first: by time, and then by the place of its list.
fn earlier_of(left: Option<Merged>, right: Option<Merged>) -> Option<Merged>
    ensures { IsEarlierOf left right result }
{
    let (Some(p), Some(q)) = (left, right) else {
        return left.or(right);
    };
    if q.point.time < p.point.time || q.point.time == p.point.time && q.place < p.place {
        right
    } else {
        left
    }
}
