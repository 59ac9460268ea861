// Exact signed arithmetic, on numbers that are small enough.
ghost use Rattle.std.specs.Prelude.{◌≡◌, ◌≤◌, pos, nat_abs, ◌+ℤ◌, ◌-ℤ◌, ◌*ℤ◌};
ghost use Rattle.std.specs.Int.Signed.{rem_z};
ghost use Rattle.language.specs.Number.{modulo};

// The exact sum.
pub fn add(x: i64, y: i64) -> i64
    requires { (nat_abs x ≤ 65535) × (nat_abs y ≤ 65535) }
    ensures { result ≡ x +ℤ y }
{
    x + y
}

// The exact difference.
pub fn sub(x: i64, y: i64) -> i64
    requires { (nat_abs x ≤ 65535) × (nat_abs y ≤ 65535) }
    ensures { result ≡ x -ℤ y }
{
    x - y
}

// The exact product.
pub fn mul(x: i64, y: i64) -> i64
    requires { (nat_abs x ≤ 65535) × (nat_abs y ≤ 65535) }
    ensures { result ≡ x *ℤ y }
{
    x * y
}

// The exact remainder, with the sign of x.
fn rem(x: i64, y: i64) -> i64
    requires small { (nat_abs x ≤ 65535) × (nat_abs y ≤ 65535) }
    requires divisor { nat_abs y ≡ 0 → ⊥ }
    ensures { result ≡ rem_z x y }
{
    x % y
}

// The remainder from 0 up to, but not including, the absolute value of y: an exact remainder that is negative is moved up by
// that value.
#[tactic(auto, using(crate::proofs::ExactSteps::abs_remainder, crate::proofs::ExactSteps::moved))]
pub fn rem_euclid(x: i64, y: i64) -> i64
    requires small { (nat_abs x ≤ 65535) × (nat_abs y ≤ 65535) }
    requires divisor { nat_abs y ≡ 0 → ⊥ }
    ensures { result ≡ pos (modulo x (nat_abs y)) }
{
    let r = rem(x, y);
    if r < 0 {
        if y < 0 {
            return sub(r, y);
        }
        return add(r, y);
    }
    r
}
