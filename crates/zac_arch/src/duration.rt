//! How long a move takes.

ghost use Rattle.std.specs.Prelude.{◌≡◌, ◌*◌, ◌≤◌, ◌^◌};
ghost use Rattle.zac_arch.specs.Distances.{IsMoveTime};

/// The fourth power of a time of at most 2^26.
fn fourth_power(time: u64) -> u128
    requires { time ≤ 2 ^ 26 }
    ensures { result ≡ time * time * (time * time) }
{
    let square = u128::from(time * time);
    square * square
}

/// The least time in which a beam with this acceleration goes `dx` along one axis and `dy` along the other:
/// the least whole t with `accel^2 * t^4 >= (dx^2 + dy^2) * 10^22`.
pub(crate) fn least_time(accel: u32, dx: u32, dy: u32) -> u64
    requires slow { 100 ≤ accel }
    requires fast { accel ≤ 1000000 }
    requires dx_most { dx ≤ 1000000 }
    requires dy_most { dy ≤ 1000000 }
    ensures { IsMoveTime accel dx dy result }
{
    let (accel, dx, dy) = (u128::from(accel), u128::from(dx), u128::from(dy));
    let wanted = ((dx * dx + dy * dy) * 10_000_000_000_000_000_000_000).div_ceil(accel * accel);
    let mut low: u64 = 0;
    let mut high: u64 = 67_108_864;
    while low < high {
        let middle = (low + high) / 2;
        if fourth_power(middle) < wanted {
            low = middle + 1;
        } else {
            high = middle;
        }
    }
    low
}
