// The cost of a link by its maximum bandwidth (02, #108).
ghost use Rattle.std.specs.Prelude.{◌≡◌, T};
ghost use Rattle.te.specs.SubTlvs.{usable};
ghost use Rattle.te.specs.Cost.{bandwidth_cost};

// The greatest whole number whose product with the bandwidth is not above 12,500,000, held to 1 to 65,535. A number of 16 bits times a significand of 24 fits
// the 53 of an f64, so each product is exact. A search by halves of the range: the library's are of slices.
pub(crate) fn cost_by(bandwidth: f32) -> u16
    requires { T (usable bandwidth) }
    ensures { result ≡ bandwidth_cost bandwidth }
{
    let wide = bandwidth as f64;
    let mut low: u16 = 1;
    let mut high: u16 = 65535;
    while low < high {
        let middle = high - (high - low) / 2;
        if middle as f64 * wide <= 12500000.0 {
            low = middle;
        } else {
            high = middle - 1;
        }
    }
    low
}
