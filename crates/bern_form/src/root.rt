ghost use Rattle.std.specs.Prelude.{◌≡◌, ℕ, ◌+◌, ◌*◌, ◌≤◌, ◌<◌, ◌^◌};
ghost use Rattle.bern_form.specs.Roots.{floor_root, ceil_root};

/// The square root of `n`, rounded down.
#[tactic(auto, using(crate::proofs::Roots::is_floor_root, crate::proofs::Roots::is_greatest))]
pub fn isqrt_floor(n: u128) -> u128
    requires { n ≤ 10 ^ 36 }
    ensures root { result ≡ floor_root n }
    ensures within { result * result ≤ n }
    ensures next { n < (result + 1) * (result + 1) }
    ensures greatest { (s : ℕ) → s * s ≤ n → s ≤ result }
{
    n.isqrt()
}

/// The square root of `n`, rounded up.
#[tactic(auto, using(crate::proofs::Roots::is_ceil_root, crate::proofs::Roots::is_least))]
pub fn isqrt_ceil(n: u128) -> u128
    requires { n ≤ 10 ^ 36 }
    ensures root { result ≡ ceil_root n }
    ensures reaches { n ≤ result * result }
    ensures least { (s : ℕ) → n ≤ s * s → result ≤ s }
{
    let below = isqrt_floor(n);
    if below * below == n { below } else { below + 1 }
}
