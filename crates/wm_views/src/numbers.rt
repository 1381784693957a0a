//! The numbers with which the names of workspaces begin.
ghost use Rattle.std.specs.Prelude.{◌≡◌, ◌≤◌, IfSome};
ghost use Rattle.wm_spaces.specs.Order.{is_digit, num, number_on, small};
ghost use Rattle.wm_views.specs.Workspaces.{number};

/// The greatest number with which a workspace's name begins.
const MAX_NUM: u64 = 2_147_483_647;

/// The number with which the name begins, or -1 where it begins with none, or with one that is too large.
pub fn number(name: &str) -> i32
    ensures { result ≡ number name.now }
{
    match num(name) {
        Some(n) => n as i32,
        None => -1,
    }
}

fn num(name: &str) -> Option<u64>
    ensures value { result ≡ num name.now }
    ensures bound { IfSome result (λ n. n ≤ 2147483647) }
{
    match name.as_bytes() {
        [first, rest @ ..] if is_digit(*first) => number_on(u64::from(*first - b'0'), rest),
        _ => None,
    }
}

/// The number of the digits at the front, behind those that make n. `None` where it is too large.
#[tactic(auto, using(wm_spaces::proofs::OrderLemmas::too_large))]
fn number_on(n: u64, bytes: &[u8]) -> Option<u64>
    ensures value { result ≡ small (number_on n bytes.now) }
    ensures bound { IfSome result (λ n. n ≤ 2147483647) }
{
    if n > MAX_NUM {
        return None;
    }
    match bytes {
        [first, rest @ ..] if is_digit(*first) => {
            number_on(n * 10 + u64::from(*first - b'0'), rest)
        }
        _ => Some(n),
    }
}

fn is_digit(b: u8) -> bool
    ensures { result ≡ is_digit b }
{
    b >= b'0' && b <= b'9'
}
