// The order of f64, which every crate above goes by: a value has a key, and `<`, `<=` and `==` on values are `<`, `≤` and `≡` on keys.
// The key and the laws stand in specs/, as statements, and are proved in proofs/.
ghost use Rattle.std.specs.Prelude.{◌≡◌, ◌<◌, length};
ghost use Rattle.threshold.specs.Order.{row_below};

// Whether a row's value is below another's.
pub fn below(values: &[f64], a: u16, b: u16) -> bool
    requires { (a < length values.now) × (b < length values.now) }
    ensures { result ≡ row_below values.now a b }
{
    values[usize::from(a)] < values[usize::from(b)]
}
