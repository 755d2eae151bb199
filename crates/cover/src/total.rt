// The sum of few numbers.

ghost use Rattle.std.specs.Prelude.{◌≡◌, ◌^◌, ◌<◌, sum};

pub fn total(xs: &[u64]) -> u64
    requires { sum xs.now < 2 ^ 64 }
    ensures { result ≡ sum xs.now }
{
    xs.iter().sum()
}
