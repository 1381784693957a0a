//! The cut of a length by shares.
ghost use Rattle.std.specs.Prelude.{◌≡◌, ◌*◌, ◌/◌, ◌≤◌, ◌<◌, All, length, sum};
ghost use Rattle.wm_defs.specs.Cut.{cut};

/// The start and the length of a child in a length in pixels that is cut by these shares.
pub fn cut(width: u32, shares: &[u32], index: usize) -> (u32, u32)
    requires index { index < length shares.now }
    requires few { length shares.now ≤ 256 }
    requires some { All (λ share. 1 ≤ share) shares.now }
    requires small { All (λ share. share ≤ 1048576) shares.now }
    requires short { width ≤ 16384 }
    ensures { result ≡ cut width shares.now index }
{
    let total = share_sum(shares);
    let start = start_at(width, share_sum(&shares[..index]), total);
    let end = start_at(width, share_sum(&shares[..index + 1]), total);
    (start, end - start)
}

fn share_sum(shares: &[u32]) -> u64
    requires { length shares.now ≤ 256 }
    ensures { result ≡ sum shares.now }
{
    shares.iter().map(|share| u64::from(*share)).sum()
}

/// Where the child begins that has shares of this sum before it, of a length that all shares fill.
pub fn start_at(length: u32, before: u64, total: u64) -> u32
    requires part { before ≤ total }
    requires few { total ≤ 268435456 }
    ensures value { result ≡ length * before / total }
    ensures within { result ≤ length }
{
    if total == 0 {
        0
    } else {
        (u64::from(length) * before / total) as u32
    }
}
