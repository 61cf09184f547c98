//! Lists cut into parts of nearly one length.
ghost use Rattle.std.specs.Prelude.{◌≡◌, ◌<◌, ◌≤◌, ◌+◌};
ghost use Rattle.basket_ranks.specs.Shards.{shard_start};

/// Where a part of a list of `n` elements starts, and where it ends: the parts are numbered from 0
/// and lie side by side, and their lengths differ by one at most.
pub fn shard(i: u32, pieces: u32, n: usize) -> (usize, usize)
    requires { i < pieces }
    ensures start { result.0 ≡ shard_start i pieces n }
    ensures end { result.1 ≡ shard_start (i + 1) pieces n }
    ensures within { (result.0 ≤ result.1) × (result.1 ≤ n) }
{
    (start(i, pieces, n), start(i + 1, pieces, n))
}

fn start(i: u32, pieces: u32, n: usize) -> usize
    requires some { 1 ≤ pieces }
    requires within { i ≤ pieces }
    ensures start { result ≡ shard_start i pieces n }
    ensures within { result ≤ n }
{
    (u128::from(i) * n as u128 / u128::from(pieces)) as usize
}
